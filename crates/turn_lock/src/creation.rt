ghost use Rattle.std.specs.Prelude.{◌≡◌, ◌<◌, ◌≤◌, [], false, IfOk};
ghost use Rattle.turn_lock.specs.declared.view.Phase.TheVariants.{Idle};
ghost use Rattle.turn_lock.specs.Openings.{opening};
ghost use Rattle.turn_lock.specs.Seats.{new_seat, turn_value, AreNewSeats};
ghost use Rattle.turn_lock.specs.Views.{newcomer, dealer_after};

use crate::kept::Kept;
use crate::rule::{Deals, FREE, First, RawSeat, Stamped, TurnTable, TurnWords};
use crate::seat::{TurnSeat, TurnSeats};
use crate::turn::Turn;
use rotating_pick::{MAX_PORTS, OutOfMemory};
use std::alloc::Global;
use std::snapshot::Snapshot;

impl<K: Kept> Turn<K> {
    /// A turn lock round a value, with 1 to 64 seats: seat i of the list has number i, has seen
    /// nothing and has no finds. The one error is out of memory.
    pub fn make(alloc: Global, value: K, seats: u32) -> Result<(Turn<K>, TurnSeats<K>), OutOfMemory>
        requires some { 0 < seats }
        requires most { seats ≤ MAX_PORTS }
        ensures value { IfOk result (λ t. (t.0.first ≡ K.entries value) × (t.0.numbers ≡ K.numbers value)) }
        ensures count { IfOk result (λ t. t.0.seats ≡ seats) }
        ensures seats { IfOk result (λ t. AreNewSeats t.0 t.1.items) }
    {
        let mut all = Vec::with_capacity(alloc, seats as usize)?;
        let (table, mut dealer) = open(alloc, value, seats)?;
        for _ in 1..seats {
            if all.push(deal(&table.shared, &mut dealer)).is_err() {
                return Err(OutOfMemory);
            }
        }
        let first = TurnSeat {
            seat: dealer,
            front: 0,
        };
        all.insert(0, first).map_err(|_| OutOfMemory)?;
        Ok((Turn { table }, all))
    }
}

// The table round a value, with the raw seat that deals the others.
fn open<K: Kept>(
    alloc: Global,
    value: K,
    seats: u32,
) -> Result<(TurnTable<K>, RawSeat<K>), OutOfMemory>
    requires { 0 < seats }
    ensures words { IfOk result (λ t. t.0.shared.table_id.words ≡ 2) }
    ensures table { IfOk result (λ t. t.1.table_id ≡ t.0.shared.table_id) }
    ensures key { IfOk result (λ t. (t.0.shared.key.value.value ≡ value) × (t.0.shared.key.seats ≡ seats)) }
    ensures seat { IfOk result (λ t. t.1.me ≡ (newcomer (opening K.entries K.numbers value seats), [])) }
{
    let about = First {
        value: Snapshot::of(&value),
        seats,
    };
    let mut slots = Vec::new(alloc);
    if slots.push(Some(Stamped { value, turns: 0 })).is_err() {
        return Err(OutOfMemory);
    }
    match TurnTable::new(alloc, &[FREE, 0], slots, &about) {
        Ok(made) => Ok(made),
        Err(_) => Err(OutOfMemory),
    }
}

// One more seat, with the next number.
fn deal<K: Kept>(words: &TurnWords<K>, dealer: &mut RawSeat<K>) -> TurnSeat<K>
    requires words { words.now.table_id.words ≡ 2 }
    requires table { dealer.old.table_id ≡ words.now.table_id }
    requires slots { dealer.old.me.1 ≡ [] }
    requires phase { dealer.old.me.0.phase ≡ Idle }
    requires live { dealer.old.me.0.spent ≡ false }
    requires some { 0 < dealer.old.me.0.given }
    requires room { dealer.old.me.0.given < dealer.old.me.0.opening.seats }
    ensures table { dealer.new.table_id ≡ dealer.old.table_id }
    ensures dealer { dealer.new.me ≡ (dealer_after dealer.old.me.0, []) }
    ensures new { result ≡ new_seat (turn_value dealer.old.table_id dealer.old.me.0.opening) dealer.old.me.0.given }
{
    TurnSeat {
        seat: words.split_seat::<Deals>(dealer),
        front: 0,
    }
}
