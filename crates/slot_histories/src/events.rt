use crossbar::{Post, Taken};
use islip_rounds::RoundsUsed;

/// What happens at the board.
#[derive(Clone, Copy, Debug, PartialEq, Eq)]
pub enum Event {
    /// A line card posts what it has for its next slot.
    Post {
        /// The card's number, that of its input and output.
        card: u32,
        /// What it posts.
        post: Post,
    },
    /// The slot that all cards have posted is decided.
    Decide,
    /// A line card takes its part of a decided slot.
    Take {
        /// The card's number.
        card: u32,
    },
}

/// What an event answers.
#[derive(Clone, Copy, Debug, PartialEq, Eq)]
pub enum Answer {
    /// A post was noted.
    Posted,
    /// A slot was decided, with these numbers of its rounds.
    Decided(RoundsUsed),
    /// What the card takes of its slot.
    Took(Taken),
}
