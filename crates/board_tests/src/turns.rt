ghost use Rattle.std.specs.Prelude.{◌≡◌, ◌≤◌, ◌<◌, ◌+◌, ℕ, [], ◌∷◌, Some, slice_get, vec_capacity, length, IfOk};
ghost use Rattle.turn_lock.specs.Seats.{new_seat};

use rotating_pick::OutOfMemory;
use std::alloc::{AllocError, Global};
use std::test::Fail;
use std::thread;
use turn_lock::{Act, Busy, Kept, Turn, TurnSeat, TurnSeats};

// The numbers of the seats that left a mark, in order, up to a most, and how often a mark was applied.
#[derive(Drop)]
struct Marks {
    marks: Vec<u32>,
    most: usize,
    applied: u64,
    ghost room: { most ≤ vec_capacity marks },
}

impl Marks {
    fn with_room(alloc: Global, most: usize) -> Result<Marks, AllocError> {
        Ok(Marks {
            marks: Vec::with_capacity(alloc, most)?,
            most,
            applied: 0,
        })
    }
}

impl Kept for Marks {
    ghost use Rattle.std.specs.Prelude.{◌≡◌, ◌∷◌, [], ◌⊎◌, refl};
    ghost use Rattle.std.proofs.Common.{inl};

    type Entry = u32;

    ghost entries = { λ m. m.marks.items };

    ghost numbers = { λ m. m.most ∷ [] };

    ghost may_add = { λ seat entries. (entries ≡ []) ⊎ (entries ≡ seat ∷ []) };

    ghost may_add_none = { λ seat. inl refl };
}

// Leaves a mark where there is room, and answers whether it did.
#[derive(Clone, Copy, Debug, PartialEq, Eq)]
struct Mark {
    seat: u32,
}

impl Act<Marks> for Mark {
    ghost use Rattle.std.specs.Prelude.{◌≡◌, ◌∷◌, [], length, slice_index, nat_lt, if◌then◌else◌};

    type Out = bool;

    ghost adds = { λ act numbers entries. if nat_lt (length entries) (slice_index numbers 0) then act.seat ∷ [] else [] };

    ghost answers = { λ act numbers entries out. out ≡ nat_lt (length entries) (slice_index numbers 0) };

    fn apply(self, kept: &mut Marks) -> bool {
        kept.applied = kept.applied.saturating_add(1);
        if kept.marks.len() >= kept.most {
            return false;
        }
        kept.marks.push_reserved(self.seat);
        true
    }
}

// Tries a turn with another seat while it is in one, and adds nothing.
#[derive(Drop)]
struct Within<'a> {
    turn: &'a Turn<Marks>,
    seat: TurnSeat<Marks>,
    ghost of: { seat.turn ≡ turn.now },
    ghost number: { seat.number ≡ 1 },
}

impl<'a> Act<Marks> for Within<'a> {
    type Out = (TurnSeat<Marks>, Result<bool, Busy<Mark>>);

    ghost adds = { λ act numbers entries. [] };

    ghost answers = { λ act numbers entries out. Unit {0} };

    fn apply(self, kept: &mut Marks) -> (TurnSeat<Marks>, Result<bool, Busy<Mark>>) {
        let Within { turn, mut seat } = self;
        let answer = leave_mark(turn, &mut seat, 1);
        (seat, answer)
    }
}

fn leave_mark(
    turn: &Turn<Marks>,
    seat: &mut TurnSeat<Marks>,
    number: u32,
) -> Result<bool, Busy<Mark>>
    requires seat { seat.old.turn ≡ turn.now }
    requires number { seat.old.number ≡ number }
    ensures seat { seat.new.turn ≡ turn.now }
    ensures number { seat.new.number ≡ number }
{
    turn.try_turn(seat, Mark { seat: number })
}

// The seat after a number of tries, with the number of those that left a mark.
fn marked(
    turn: &Turn<Marks>,
    mut seat: TurnSeat<Marks>,
    number: u32,
    tries: u32,
) -> (TurnSeat<Marks>, usize)
    requires seat { seat.turn ≡ turn.now }
    requires number { seat.number ≡ number }
    ensures seat { result.0.turn ≡ turn.now }
    ensures number { result.0.number ≡ number }
{
    let mut marks = 0usize;
    for _ in 0..tries {
        if leave_mark(turn, &mut seat, number) == Ok(true) {
            marks = marks.saturating_add(1);
        }
    }
    (seat, marks)
}

// The seat of the greatest number that is left.
fn last_seat(turn: &Turn<Marks>, seats: &mut TurnSeats<Marks>) -> TurnSeat<Marks>
    requires some { 0 < length seats.old.items }
    requires new { (i : ℕ) (s : _) → slice_get seats.old.items i ≡ Some s → s ≡ new_seat turn.now i }
    ensures count { length seats.new.items + 1 ≡ length seats.old.items }
    ensures new { (i : ℕ) (s : _) → slice_get seats.new.items i ≡ Some s → s ≡ new_seat turn.now i }
    ensures seat { result ≡ new_seat turn.now (length seats.new.items) }
{
    let Some(seat) = seats.pop() else {
        unreachable!()
    };
    seat
}

fn with_one_seat(alloc: Global, most: usize) -> Result<(Turn<Marks>, TurnSeat<Marks>), OutOfMemory>
    ensures { IfOk result (λ t. (t.0.seats ≡ 1) × (t.1 ≡ new_seat t.0 0)) }
{
    let marks = Marks::with_room(alloc, most)?;
    let (turn, mut seats) = Turn::make(alloc, marks, 1)?;
    let seat = last_seat(&turn, &mut seats);
    Ok((turn, seat))
}

fn with_two_seats(
    alloc: Global,
    most: usize,
) -> Result<(Turn<Marks>, TurnSeat<Marks>, TurnSeat<Marks>), OutOfMemory>
    ensures count { IfOk result (λ t. t.0.seats ≡ 2) }
    ensures seats { IfOk result (λ t. (t.1 ≡ new_seat t.0 0) × (t.2 ≡ new_seat t.0 1)) }
{
    let marks = Marks::with_room(alloc, most)?;
    let (turn, mut seats) = Turn::make(alloc, marks, 2)?;
    let second = last_seat(&turn, &mut seats);
    let first = last_seat(&turn, &mut seats);
    Ok((turn, first, second))
}

fn close_one(alloc: Global, turn: Turn<Marks>, seat: TurnSeat<Marks>) -> Result<Marks, OutOfMemory>
    requires count { turn.seats ≡ 1 }
    requires seat { (seat.turn ≡ turn) × (seat.number ≡ 0) }
{
    let mut seats = Vec::new(alloc);
    seats.push(seat)?;
    Ok(turn.close(seats))
}

fn close_two(
    alloc: Global,
    turn: Turn<Marks>,
    first: TurnSeat<Marks>,
    second: TurnSeat<Marks>,
) -> Result<Marks, OutOfMemory>
    requires count { turn.seats ≡ 2 }
    requires turns { (first.turn ≡ turn) × (second.turn ≡ turn) }
    requires numbers { (first.number ≡ 0) × (second.number ≡ 1) }
{
    let mut seats = Vec::new(alloc);
    seats.push(first)?;
    seats.push(second)?;
    Ok(turn.close(seats))
}

fn is_shared<T: Sync>(_value: &T) {}

fn is_sent<T: Send>(_value: &T) {}

// A turn lock may be shared, and its seats may be sent, wherever its value may be sent.
fn crosses_threads<K: Kept + Send>(turn: &Turn<K>, seat: &TurnSeat<K>) {
    is_shared(turn);
    is_sent(turn);
    is_sent(seat);
}

const TRIES: u32 = 1_000;

#[test]
fn one_seat_is_never_busy(rt: HostRuntime) -> Result<(), Fail> {
    let (turn, seat) = with_one_seat(rt.alloc(), 1_000)?;
    let (seat, marks) = marked(&turn, seat, 0, TRIES);
    assert_eq!(rt; marks, 1_000);
    assert_eq!(rt; seat.front(), 1_000);
    Ok(())
}

#[test]
fn each_act_is_applied_once_to_what_close_hands_out(rt: HostRuntime) -> Result<(), Fail> {
    let (turn, seat) = with_one_seat(rt.alloc(), 2_000)?;
    let (seat, marks) = marked(&turn, seat, 0, TRIES);
    let whole = close_one(rt.alloc(), turn, seat)?;
    assert_eq!(rt; marks, 1_000);
    assert_eq!(rt; whole.applied, 1_000);
    assert_eq!(rt; whole.marks.len(), 1_000);
    assert!(rt; whole.marks.iter().all(|seat| *seat == 0));
    Ok(())
}

#[test]
fn a_turn_within_a_turn_is_busy(rt: HostRuntime) -> Result<(), Fail> {
    let (turn, mut outer, inner) = with_two_seats(rt.alloc(), 8)?;
    let within = Within {
        turn: &turn,
        seat: inner,
    };
    let Ok((inner, answer)) = turn.try_turn(&mut outer, within) else {
        return Err("the outer turn was busy".into());
    };
    let busy: Result<bool, Busy<Mark>> = Err(Busy {
        act: Mark { seat: 1 },
    });
    assert_eq!(rt; answer, busy);
    assert_eq!(rt; inner.front(), 0);
    assert_eq!(rt; outer.front(), 1);
    Ok(())
}

#[test]
fn marks_of_two_threads_stand_once(rt: HostRuntime) -> Result<(), Fail> {
    let (turn, first, second) = with_two_seats(rt.alloc(), 2_000)?;
    crosses_threads(&turn, &first);
    let ((first, by_first), (second, by_second)) = thread::join(
        &rt,
        || marked(&turn, first, 0, TRIES),
        || marked(&turn, second, 1, TRIES),
    );
    let whole = close_two(rt.alloc(), turn, first, second)?;
    let of_seat = |number: u32| whole.marks.iter().filter(|seat| **seat == number).count();
    assert_eq!(rt; of_seat(0), by_first);
    assert_eq!(rt; of_seat(1), by_second);
    assert_eq!(rt; whole.marks.len(), by_first.saturating_add(by_second));
    assert_eq!(rt; whole.applied, whole.marks.len() as u64);
    Ok(())
}
