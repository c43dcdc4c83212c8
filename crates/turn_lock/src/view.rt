use crate::history::{Opening, TurnOf};
use std::collections::LinkedList;

/// Where a seat is in its turn.
pub enum Phase {
    /// In no turn.
    Idle,
    /// It has the turn word, and the turn is not counted yet.
    Begun,
    /// The turn is counted, and the turn word still held.
    Raised,
}

/// What a joined seat had seen, and its finds since its last turn. No value of it is made.
pub struct JoinedSeat<E> {
    pub number: u64,
    pub seen: LinkedList<TurnOf<E>>,
    pub since: u64,
}

/// What a seat knows. No value of it is made.
pub struct View<E> {
    pub number: u64,
    pub seen: LinkedList<TurnOf<E>>,
    pub finds: u64,
    pub since: u64,
    pub phase: Phase,
    pub before: LinkedList<TurnOf<E>>,
    pub opening: Opening<E>,
    pub given: u64,
    pub joined: LinkedList<JoinedSeat<E>>,
    pub spent: bool,
}
