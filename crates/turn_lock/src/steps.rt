//! The single steps of a turn, on the table and a raw seat.
ghost use Rattle.std.specs.Prelude.{◌≡◌, ◌≢◌, ◌<◌, ◌+◌, ◌++◌, ℕ, List, [], ◌∷◌, true, false, Some, None, length, drop};
ghost use Rattle.turn_lock.specs.declared.rule.Stamped.{Stamped};
ghost use Rattle.turn_lock.specs.declared.view.Phase.TheVariants.{Idle, Begun};
ghost use Rattle.turn_lock.specs.Histories.{entries_of};
ghost use Rattle.turn_lock.specs.Views.{found_held, freed_at};
ghost use Rattle.turn_lock.specs.Rule.{Begins, IsRaised, MayFree};

use crate::kept::Kept;
use crate::rule::{
    COUNT_WORD, FREE, Frees, HELD, Raises, RawSeat, SLOT, Stamped, TURN_WORD, Tries, TurnWords,
};

// Whether the turn was free, and is this seat's now, with the slot.
pub(crate) fn take<K: Kept>(words: &TurnWords<K>, seat: &mut RawSeat<K>) -> bool
    requires words { words.now.table_id.words ≡ 2 }
    requires table { seat.old.table_id ≡ words.now.table_id }
    requires slots { seat.old.me.1 ≡ [] }
    requires phase { seat.old.me.0.phase ≡ Idle }
    requires live { seat.old.me.0.spent ≡ false }
    ensures table { (seat.new.table_id ≡ seat.old.table_id) × (seat.new.id ≡ seat.old.id) }
    ensures held { result ≡ false → seat.new.me ≡ (found_held seat.old.me.0, []) }
    ensures not_alone { result ≡ false → seat.old.me.0.given ≢ 1 }
    ensures taken { result ≡ true → Begins K.entries K.numbers K.may_add seat.old.me seat.new.me }
{
    words.compare_exchange::<Tries<K>>(seat, TURN_WORD, FREE, HELD) == FREE
}

// Takes the value out of the slot.
pub(crate) fn take_out<K: Kept>(words: &TurnWords<K>, seat: &mut RawSeat<K>) -> Option<Stamped<K>>
    requires table { seat.old.table_id ≡ words.now.table_id }
    requires slot { (x : Stamped K) × (seat.old.me.1 ≡ (0, Some x) ∷ []) }
    ensures table { (seat.new.table_id ≡ seat.old.table_id) × (seat.new.id ≡ seat.old.id) }
    ensures value { seat.old.me.1 ≡ (0, result) ∷ [] }
    ensures left { seat.new.me ≡ (seat.old.me.0, (0, None) ∷ []) }
{
    words.exchange(seat, SLOT, None)
}

// Puts the value into the slot.
pub(crate) fn put_home<K: Kept>(words: &TurnWords<K>, seat: &mut RawSeat<K>, value: Stamped<K>)
    requires table { seat.old.table_id ≡ words.now.table_id }
    requires slot { seat.old.me.1 ≡ (0, None) ∷ [] }
    ensures table { (seat.new.table_id ≡ seat.old.table_id) × (seat.new.id ≡ seat.old.id) }
    ensures left { seat.new.me ≡ (seat.old.me.0, (0, Some value) ∷ []) }
{
    let old = words.exchange(seat, SLOT, Some(value));
    discard_none(old);
}

fn discard_none<K>(none: Option<Stamped<K>>)
    requires { none ≡ None }
{
    match none {
        None => {}
        Some(_) => unreachable!(),
    }
}

// Counts the turn, whose entries are those that the value has beyond the history before.
pub(crate) fn raise<K: Kept>(words: &TurnWords<K>, seat: &mut RawSeat<K>, turns: u64)
    requires words { words.now.table_id.words ≡ 2 }
    requires table { seat.old.table_id ≡ words.now.table_id }
    requires live { (seat.old.me.0.spent ≡ false) × (seat.old.me.0.joined ≡ []) }
    requires phase { seat.old.me.0.phase ≡ Begun }
    requires turns { turns ≡ length seat.old.me.0.before + 1 }
    requires number { seat.old.me.0.number < seat.old.me.0.opening.seats }
    requires value { (x : Stamped K) × (seat.old.me.1 ≡ (0, Some x) ∷ [])
        × K.may_add seat.old.me.0.number (drop (length (seat.old.me.0.opening.first ++ entries_of seat.old.me.0.before)) (K.entries x.value)) }
    ensures table { (seat.new.table_id ≡ seat.old.table_id) × (seat.new.id ≡ seat.old.id) }
    ensures raised { IsRaised K.entries K.numbers K.may_add seat.old.me seat.new.me }
{
    words.store::<Raises<K>>(seat, COUNT_WORD, turns);
}

// Gives the slot and the turn word back, after the raise, or where no further turn can be counted.
pub(crate) fn free<K: Kept>(words: &TurnWords<K>, seat: &mut RawSeat<K>)
    requires words { words.now.table_id.words ≡ 2 }
    requires table { seat.old.table_id ≡ words.now.table_id }
    requires live { seat.old.me.0.spent ≡ false }
    requires may { MayFree K.entries K.numbers K.may_add seat.old.me }
    ensures table { (seat.new.table_id ≡ seat.old.table_id) × (seat.new.id ≡ seat.old.id) }
    ensures freed { seat.new.me ≡ (freed_at seat.old.me.0.phase seat.old.me.0, []) }
{
    words.store::<Frees<K>>(seat, TURN_WORD, FREE);
}
