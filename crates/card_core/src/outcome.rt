/// What a card leaves.
#[derive(Debug, Drop)]
pub struct CardOut {
    /// The messages delivered to the card's output, one after the other.
    pub body: Vec<u8>,
    /// The length of each of these messages in bytes.
    pub lens: Vec<u32>,
    /// How many messages these are.
    pub packets: u32,
    /// How many cells the card took.
    pub cells: u32,
    /// How many of the card's own packets were admitted to their queues.
    pub admitted: u32,
    /// How many of the card's own packets were dropped.
    pub dropped: u32,
}
