ghost use Rattle.std.specs.Prelude.{◌≡◌, ◌<◌, ℕ, false};
ghost use Rattle.turn_lock.specs.declared.view.Phase.TheVariants.{Idle};
ghost use Rattle.turn_lock.specs.Openings.{opening};
ghost use Rattle.turn_lock.specs.Seats.{AreSeats, IsWhole};
ghost use Rattle.turn_lock.specs.Views.{with_joined, joined_seat, numbers_of};
ghost use Rattle.turn_lock.specs.Rule.{IsIn, Ended};

use crate::kept::Kept;
use crate::rule::{Joins, RawSeat, SLOT, TurnTable, TurnWords};
use crate::seat::{TurnSeat, TurnSeats};
use crate::turn::Turn;

impl<K: Kept> Turn<K> {
    /// Hands out the value, which stands for all turns of all seats. Where a seat was answered Busy
    /// since its last own turn, turns of other seats follow what it had seen, or the history is at its
    /// last length.
    pub fn close(self, seats: TurnSeats<K>) -> K
        requires { AreSeats self seats.items }
        ensures { IsWhole K.entries K.numbers K.may_add self seats.items result }
    {
        let mut rest = seats;
        let TurnSeat {
            seat: mut dealer,
            front: _,
        } = rest.remove(0);
        while let Some(next) = rest.pop() {
            join(&self.table.shared, &mut dealer, next);
        }
        let Turn { table } = self;
        end(table, dealer)
    }
}

// The first seat knows from then on what the second had seen.
fn join<K: Kept>(words: &TurnWords<K>, first: &mut RawSeat<K>, second: TurnSeat<K>)
    requires words { words.now.table_id.words ≡ 2 }
    requires table { first.old.table_id ≡ words.now.table_id }
    requires second { second.turn.table ≡ words.now.table_id }
    requires first { (first.old.me.0.spent ≡ false) × (first.old.me.0.phase ≡ Idle) }
    ensures table { first.new.table_id ≡ first.old.table_id }
    ensures joined { first.new.me ≡ (with_joined first.old.me.0 (joined_seat second), first.old.me.1) }
{
    let TurnSeat { seat, front: _ } = second;
    words.join_seat::<Joins>(first, seat);
}

// The value, where the seat has all numbers.
fn end<K: Kept>(table: TurnTable<K>, seat: RawSeat<K>) -> K
    requires table { seat.table_id ≡ table.shared.table_id }
    requires idle { (seat.me.0.spent ≡ false) × (seat.me.0.phase ≡ Idle) × (0 < seat.me.0.given) }
    requires all { (n : ℕ) → n < seat.me.0.given → IsIn n (numbers_of seat.me.0) }
    ensures { Ended K.entries K.numbers K.may_add (opening K.entries K.numbers table.shared.key.value.value table.shared.key.seats) seat.me.0 result }
{
    let mut closed = table.close_with(seat);
    let value = closed.take(SLOT);
    closed.free();
    match value {
        Some(stamped) => stamped.value,
        None => unreachable!(),
    }
}
