/// Where a line card stands at the board.
#[derive(Clone, Copy, Debug, PartialEq, Eq)]
pub struct CardBook {
    /// The card's number.
    pub card: u32,
    /// The slot that it is to post, or has posted and not taken.
    pub slot: u32,
    /// Whether it has posted that slot.
    pub posted: bool,
    /// Whether it took a slot that is done.
    pub done: bool,
}
