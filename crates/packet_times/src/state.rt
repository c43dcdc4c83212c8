/// What became of a packet.
#[derive(Clone, Copy, Debug, PartialEq, Eq)]
pub enum PacketState {
    /// It entered its queue, and left by each of its outputs.
    Forwarded,
    /// Its queue had no room for it.
    Dropped,
    /// The table has no route for it.
    Unrouted,
    /// It is too long to be forwarded.
    Oversize,
}
