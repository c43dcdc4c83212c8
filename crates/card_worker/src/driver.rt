ghost use Rattle.std.specs.Prelude.{◌≡◌, ◌<◌, ◌≤◌, ◌+◌, ◌-◌, ◌^◌, ℕ, true, false, min, Some, length, slice_get, slice_index};
ghost use Rattle.slot_board.specs.Calls.{IsSeat};
ghost use Rattle.card_worker.specs.declared.hands.Member.{Member};
ghost use Rattle.card_worker.specs.Trying.{IsMember, IsSound};
ghost use Rattle.card_worker.specs.Driving.{AfterPasses};
ghost use Rattle.card_worker.specs.DrivingSteps.{AfterTurn, AfterTurns, SomeIsPatient, is_patient};

use crate::hands::{Gate, Group, Member};
use crate::tries::try_member;
use rotating_pick::MAX_PORTS;
use slot_board::Board;
use std::hint::spin_loop;

// How many spin hints a worker gives after a pass without a post or a take.
const PAUSE_HINTS: u32 = 64;

// How often each member was refused since the passes began.
type Refusals = [u32; MAX_PORTS as usize];

/// Drives the members pass by pass, until none goes on. A member goes on while it is due, until it was refused
/// `patience` times here, in all and not in a row; each that goes on makes one try in each pass. So one that is due at
/// the end was refused exactly `patience` times, and one that was not due is as it was. Answers how many posts and
/// takes the members made.
pub fn drive<G: Gate>(group: &mut Group, board: &Board, gate: &G, patience: u32) -> u64
    requires few { length group.old.members.items ≤ MAX_PORTS }
    requires members { (j : ℕ) (m : Member) → slice_get group.old.members.items j ≡ Some m → IsMember board.now m }
    ensures passes { AfterPasses board.now group.old.members.items group.new.members.items patience result }
    ensures none { patience ≡ 0 → group.new.members.items ≡ group.old.members.items }
    ensures events { group.new.events ≡ min (group.old.events + result) (2 ^ 64 - 1) }
    ensures worker { group.new.worker ≡ group.old.worker }
{
    hear(&group.members);
    let made = drive_all(&mut group.members, board, gate, group.worker, patience);
    group.events = group.events.saturating_add(made);
    made
}

// For the proof alone: what the type of a seat says, of the seat of each member.
fn hear(members: &[Member])
    ensures { (j : ℕ) (m : Member) → slice_get members.now j ≡ Some m → IsSeat m.seat }
{
    for member in members {
        member.seat.legal();
    }
}

fn drive_all<G: Gate>(
    members: &mut [Member],
    board: &Board,
    gate: &G,
    worker: u32,
    patience: u32,
) -> u64
    requires few { length members.old ≤ MAX_PORTS }
    requires sound { (j : ℕ) (m : Member) → slice_get members.old j ≡ Some m → IsSound board.now m }
    ensures passes { AfterPasses board.now members.old members.new patience result }
    ensures none { patience ≡ 0 → members.new ≡ members.old }
{
    let mut refused = [0; MAX_PORTS as usize];
    let mut made: u64 = 0;
    for _passes in 0..u64::MAX {
        if !some_go_on(members, &refused, board, patience) {
            return made;
        }
        let acts = pass(members, &mut refused, board, gate, worker, patience);
        if acts == 0 {
            pause();
        }
        made += acts;
    }
    unreachable!()
}

// Leaves the board to the other workers for a moment.
fn pause() {
    for _ in 0..PAUSE_HINTS {
        spin_loop();
    }
}

// Whether a member goes on.
fn some_go_on(members: &[Member], refused: &Refusals, board: &Board, patience: u32) -> bool
    requires few { length members.now ≤ MAX_PORTS }
    requires turns { (j : ℕ) (m : Member) → slice_get members.now j ≡ Some m → m.seat.turn ≡ board.now }
    ensures some { result ≡ true → SomeIsPatient patience members.now refused.now }
    ensures none { result ≡ false → (j : ℕ) (m : Member) → slice_get members.now j ≡ Some m → is_patient patience m (slice_index refused.now j) ≡ false }
{
    for (place, member) in members.iter().enumerate() {
        if goes_on(member, refused[place], board, patience) {
            return true;
        }
    }
    false
}

// Whether the member is due, and was not refused too often.
fn goes_on(member: &Member, refused: u32, board: &Board, patience: u32) -> bool
    requires { member.now.seat.turn ≡ board.now }
    ensures { result ≡ is_patient patience member.now refused }
{
    member.seat.is_due(board) && refused < patience
}

// One pass: each member that goes on makes one try. Answers how many of these were posts and takes.
fn pass<G: Gate>(
    members: &mut [Member],
    refused: &mut Refusals,
    board: &Board,
    gate: &G,
    worker: u32,
    patience: u32,
) -> u64
    requires few { length members.old ≤ MAX_PORTS }
    requires sound { (j : ℕ) (m : Member) → slice_get members.old j ≡ Some m → IsSound board.now m }
    ensures { AfterTurns board.now patience members.old refused.old members.new refused.new (length members.old) result }
{
    let mut acts: u64 = 0;
    for place in 0..members.len() {
        if take_turn(
            &mut members[place],
            &mut refused[place],
            board,
            gate,
            worker,
            patience,
        ) {
            acts += 1;
        }
    }
    acts
}

// A member's turn in a pass: a try, where it goes on. Whether that was a post or a take.
fn take_turn<G: Gate>(
    member: &mut Member,
    refused: &mut u32,
    board: &Board,
    gate: &G,
    worker: u32,
    patience: u32,
) -> bool
    requires sound { IsSound board.now member.old }
    ensures { AfterTurn board.now patience member.old refused.old member.new refused.new result }
{
    if !goes_on(member, *refused, board, patience) {
        return false;
    }
    let acted = try_member(member, board, gate, worker);
    if !acted {
        *refused += 1;
    }
    acted
}
