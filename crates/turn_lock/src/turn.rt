ghost use Rattle.std.specs.Prelude.{◌≡◌, ◌<◌, ◌≤◌, ◌^◌, ◌+◌, ◌++◌, ℕ, List, [], false, length, IfOk, IfErr};
ghost use Rattle.turn_lock.specs.declared.view.Phase.TheVariants.{Idle};
ghost use Rattle.turn_lock.specs.Seats.{busy, HasTurn};
ghost use Rattle.turn_lock.specs.Views.{found_held, HasWholeTurn};

use crate::kept::{Act, Kept};
use crate::rule::{RawSeat, TurnTable, TurnWords};
use crate::seat::TurnSeat;
use crate::steps::{free, put_home, raise, take, take_out};
use std::marker::Model;

/// The turn was not got, and the act comes back.
#[derive(Clone, Debug, Drop, PartialEq, Eq, Hash)]
pub struct Busy<A> {
    pub act: A,
}

/// A value that one seat at a time works on, with one history of turns. Contracts see which turn lock
/// it is, the entries and the fixed numbers of its first value, and how many seats it has.
#[derive(Drop)]
pub struct Turn<K: Kept> {
    pub(crate) table: TurnTable<K>,
}

impl<K: Kept> Model for Turn<K> {
    ghost use Rattle.std.specs.Prelude.{◌≡◌, ◌<◌};
    ghost use Rattle.turn_lock.specs.Openings.{opening};
    ghost use Rattle.turn_lock.specs.Seats.{TurnValue, turn_value};

    ghost Value = { TurnValue K.Entry };

    ghost view = { λ t. turn_value t.table.shared.table_id (opening K.entries K.numbers t.table.shared.key.value.value t.table.shared.key.seats) };

    ghost invariant = { λ t. (t.table.shared.table_id.words ≡ 2) × (0 < t.table.shared.key.seats) };
}

impl<K: Kept> Turn<K> {
    /// One turn of this seat with this act, or none. It makes one compare-exchange, and waits for
    /// nobody.
    ///
    /// Ok adds one turn of the seat, with the act's entries, at the end of the whole history, which
    /// the seat has then seen. Busy comes exactly where the compare-exchange found the turn word held,
    /// or where the history is at its last length, the last value of a `u64`: the act comes back, and
    /// the seat's finds are one more. So after a turn of its own a seat is answered Busy only once
    /// another seat has begun a further turn, or at the last length: `close()` ensures it of the whole
    /// history. The seat of a turn lock with one seat is answered Busy only at the last length.
    pub fn try_turn<A: Act<K>>(&self, seat: &mut TurnSeat<K>, act: A) -> Result<A::Out, Busy<A>>
        requires seat { seat.old.turn ≡ self.now }
        requires allowed { (entries : List K.Entry) → K.may_add seat.old.number (A.adds act self.now.numbers entries) }
        ensures turn { IfOk result (λ out. HasTurn K.may_add (A.adds act) (λ numbers entries. A.answers act numbers entries out) seat.old seat.new) }
        ensures busy { IfErr result (λ back. (back.act ≡ act) × (seat.new ≡ busy seat.old)) }
        ensures alone { IfErr result (λ _. self.now.seats ≡ 1 → 2 ^ 64 ≤ length seat.old.seen + 1) }
    {
        match turn_with(&self.table.shared, &mut seat.seat, act) {
            Ok(Granted { out, turns }) => {
                seat.front = turns;
                Ok(out)
            }
            Err(busy) => Err(busy),
        }
    }
}

// What a turn gave: the act's answer, and the number of turns so far.
struct Granted<O> {
    out: O,
    turns: u64,
}

// One turn of a raw seat, or none: take, out, apply, home, raise, free.
fn turn_with<K: Kept, A: Act<K>>(
    words: &TurnWords<K>,
    seat: &mut RawSeat<K>,
    act: A,
) -> Result<Granted<A::Out>, Busy<A>>
    requires words { words.now.table_id.words ≡ 2 }
    requires table { seat.old.table_id ≡ words.now.table_id }
    requires slots { seat.old.me.1 ≡ [] }
    requires phase { seat.old.me.0.phase ≡ Idle }
    requires live { (seat.old.me.0.spent ≡ false) × (seat.old.me.0.joined ≡ []) }
    requires number { seat.old.me.0.number < seat.old.me.0.opening.seats }
    requires allowed { (entries : List K.Entry) → K.may_add seat.old.me.0.number (A.adds act seat.old.me.0.opening.numbers entries) }
    ensures table { (seat.new.table_id ≡ seat.old.table_id) × (seat.new.id ≡ seat.old.id) }
    ensures turn { IfOk result
        (λ granted. HasWholeTurn K.may_add (A.adds act)
        (λ numbers entries. A.answers act numbers entries granted.out) seat.old.me.0 seat.new.me granted.turns) }
    ensures busy { IfErr result (λ back. (back.act ≡ act) × (seat.new.me ≡ (found_held seat.old.me.0, []))) }
    ensures alone { IfErr result (λ _. seat.old.me.0.given ≡ 1 → 2 ^ 64 ≤ length seat.old.me.0.seen + 1) }
{
    if !take(words, seat) {
        return Err(Busy { act });
    }
    let Some(mut stamped) = take_out(words, seat) else {
        unreachable!()
    };
    if stamped.turns == u64::MAX {
        put_home(words, seat, stamped);
        free(words, seat);
        return Err(Busy { act });
    }
    let out = act.apply(&mut stamped.value);
    stamped.turns += 1;
    let turns = stamped.turns;
    put_home(words, seat, stamped);
    raise(words, seat, turns);
    free(words, seat);
    Ok(Granted { out, turns })
}
