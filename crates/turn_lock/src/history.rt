use std::collections::LinkedList;

/// One turn of a history: the number of its seat, and the entries that its act added, perhaps none.
/// Contracts speak of it; no value of it is made.
pub struct TurnOf<E> {
    pub seat: u64,
    pub entries: LinkedList<E>,
}

/// What a turn lock was made with: the entries and the fixed numbers of its first value, and the
/// number of its seats. No value of it is made.
pub struct Opening<E> {
    pub first: LinkedList<E>,
    pub numbers: LinkedList<u64>,
    pub seats: u64,
}
