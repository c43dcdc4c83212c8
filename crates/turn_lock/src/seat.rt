ghost use Rattle.std.specs.Prelude.{◌≡◌, length};

use crate::kept::Kept;
use crate::rule::RawSeat;
use std::marker::Model;

/// One of those that take turns. Contracts see its turn lock, its number, the prefix of the history
/// that it has seen, and its finds: the number of its tries that found the turn word held or the
/// history at its last length, the last value of a `u64`. They also see those of its finds that came
/// after its last own turn, which are all where it had none.
#[derive(Drop)]
pub struct TurnSeat<K: Kept> {
    pub(crate) seat: RawSeat<K>,
    pub(crate) front: u64,
}

/// All seats of a turn lock, by number.
pub type TurnSeats<K> = Vec<TurnSeat<K>>;

impl<K: Kept> Model for TurnSeat<K> {
    ghost use Rattle.turn_lock.specs.Seats.{SeatValue};
    ghost use Rattle.turn_lock.specs.Views.{seat_value, IsBetweenCalls};

    ghost Value = { SeatValue K.Entry };

    ghost view = { λ s. seat_value s.seat.table_id s.seat.me.0 };

    ghost invariant = { λ s. IsBetweenCalls s.seat.me s.front };
}

impl<K: Kept> TurnSeat<K> {
    /// The number of turns that this seat has seen. After a turn of its own these are all turns up to
    /// and with that one.
    pub fn front(&self) -> u64
        ensures { result ≡ length self.now.seen }
    {
        self.front
    }
}
