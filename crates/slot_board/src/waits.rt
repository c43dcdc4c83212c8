use rotating_pick::Ports;

/// Why a card could not take its part of its slot.
#[derive(Clone, Copy, Debug, PartialEq, Eq)]
pub enum TakeWait {
    /// Another card had the board.
    Busy,
    /// The card's slot is not decided yet, for not all cards have posted it.
    NotYet {
        /// The cards that have posted it.
        posted: Ports,
    },
}
