ghost use Rattle.std.specs.Prelude.{◌≡◌, ◌≤◌, ℕ, [], Some, slice_get, length, vec_capacity, IfOk};
ghost use Rattle.slot_board.specs.ColumnSteps.{IsNewCard};

use crate::acts::KeptState;
use crate::seat::{CardSeat, Seats};
use rotating_pick::OutOfMemory;
use slot_match::Row;
use std::alloc::Global;
use turn_lock::{TurnSeat, TurnSeats};

// The seats of the cards, by card, of which nothing is posted.
pub(crate) fn card_seats(
    alloc: Global,
    turn_seats: TurnSeats<KeptState>,
    ports: u32,
) -> Result<Seats, OutOfMemory>
    requires count { length turn_seats.items ≡ ports }
    requires new { (i : ℕ) (s : _) → slice_get turn_seats.items i ≡ Some s → IsNewCard ports i s }
    ensures { IfOk result (λ seats. seats.items ≡ turn_seats.items) }
{
    let mut seats = Vec::with_capacity(alloc, ports as usize)?;
    let mut card = 0;
    for seat in turn_seats {
        let room = room_in(alloc, ports, card)?;
        seats.push_reserved(card_seat(seat, ports, card, room));
        card += 1;
    }
    Ok(seats)
}

// An empty list, in the first seat with room for all seats.
fn room_in(alloc: Global, ports: u32, card: u32) -> Result<TurnSeats<KeptState>, OutOfMemory>
    ensures empty { IfOk result (λ room. room.items ≡ []) }
    ensures room { IfOk result (λ room. card ≡ 0 → ports ≤ vec_capacity room) }
{
    if card == 0 {
        Ok(Vec::with_capacity(alloc, ports as usize)?)
    } else {
        Ok(Vec::new(alloc))
    }
}

// The seat of a card that has not posted yet.
fn card_seat(
    seat: TurnSeat<KeptState>,
    ports: u32,
    card: u32,
    room: TurnSeats<KeptState>,
) -> CardSeat
    requires new { IsNewCard ports card seat }
    requires empty { room.items ≡ [] }
    requires room { card ≡ 0 → ports ≤ vec_capacity room }
    ensures { result ≡ seat }
{
    CardSeat {
        seat,
        ports,
        card,
        slot: 0,
        posted: false,
        done: false,
        last: Row::empty(),
        served: None,
        refused: 0,
        room,
    }
}
