//! Groups of a board's cards, and runs of them.

ghost use Rattle.std.specs.Prelude.{◌≡◌, ◌+◌, ◌<◌, ◌≤◌, ℕ, [], false, None, Some, All, IfOk, length, slice_get, slice_index_or};
ghost use Rattle.turn_lock.specs.Seats.{AreNewSeats};
ghost use Rattle.card_core.specs.Cards.{IsAfter};
ghost use Rattle.card_worker.specs.declared.hands.Member.{Member};
ghost use Rattle.card_worker.specs.declared.hands.Group.{Group};
ghost use Rattle.card_worker.specs.Trying.{IsMember};
ghost use Rattle.card_worker.specs.Groups.{AreGroups, IsGroup, IsDrivenGroup};
ghost use Rattle.card_worker.specs.Alone.{AreHandsOf};

use crate::tries::next_post;
use crate::{Group, Hand, Hands, Member, OpenGate, close_with, disband, drive, finish_alone, laws};
use card_core::{Card, CardPlan, Planned};
use rotating_pick::MAX_PORTS;
use slot_board::{Board, BoardState, Seats};
use std::alloc::{AllocError, Global};
use std::test::Fail;
use std::thread;
use std::thread::Threads;

// A run: the packets of each card, in a switch of `n` ports that makes `rounds` rounds a slot.
#[derive(Clone, Copy)]
pub(crate) struct Job<'a> {
    pub(crate) n: u32,
    pub(crate) rounds: u32,
    pub(crate) packets: &'a [&'a [Planned]],
}

// How the cards are shared: into how many groups, how many threads drive them at once, and how often. Whether
// each card has made its first post before, which its hand keeps, as where the board was busy.
#[derive(Clone, Copy, Debug)]
pub(crate) struct Way {
    pub(crate) groups: u32,
    pub(crate) threads: usize,
    pub(crate) patience: u32,
    pub(crate) times: u32,
    pub(crate) ahead: bool,
}

// The most captured bytes of a card's packets, and the most bytes and messages of its output.
const BYTES: usize = 60;

const BODY_BYTES: u64 = 200;

const MESSAGES: u32 = 3;

const MESSAGE_BYTES: u32 = 76;

// The plan of a card, whose captured bytes are 0, 1, 2 and so on.
fn plan_of(alloc: Global, job: &Job<'_>, card: u32) -> Result<CardPlan, AllocError>
    ensures { IfOk result (λ plan. (plan.n ≡ job.now.n) × (plan.card ≡ card)) }
{
    let mut bytes = Vec::with_capacity(alloc, BYTES)?;
    for k in 0..BYTES {
        bytes.push(k as u8)?;
    }
    let packets = job.packets.get(card as usize).copied().unwrap_or(&[]);
    Ok(CardPlan {
        n: job.n,
        card,
        depth: 8,
        packets: packets.to_vec(alloc)?,
        bytes,
        sizes: vec![in alloc; MESSAGE_BYTES; job.n as usize * 8]?,
        body_room: BODY_BYTES,
        packet_room: MESSAGES,
    })
}

// A new card.
fn hand_of(alloc: Global, job: &Job<'_>, card: u32) -> Result<Hand, Fail>
    requires { job.now.n ≤ MAX_PORTS }
    ensures kept { IfOk result (λ hand. hand.kept ≡ None) }
    ensures after { IfOk result (λ hand. IsAfter hand.card [] false) }
    ensures ports { IfOk result (λ hand. hand.card.sends.plan.ports ≡ job.now.n) }
    ensures card { IfOk result (λ hand. hand.card.sends.plan.card ≡ card) }
{
    let plan = plan_of(alloc, job, card)?;
    if !plan.is_good() {
        return Err("plan".into());
    }
    let card = Card::make(alloc, plan)?;
    Ok(Hand { card, kept: None })
}

// `count` groups without members.
fn empty_groups(alloc: Global, count: u32) -> Result<Vec<Group>, AllocError>
    ensures count { IfOk result (λ groups. length groups.items ≡ count) }
    ensures empty { IfOk result (λ groups. (p : ℕ) (g : Group) → slice_get groups.items p ≡ Some g → g.members.items ≡ []) }
{
    let mut groups = Vec::with_capacity(alloc, count as usize)?;
    for worker in 0..count {
        groups.push(Group {
            worker,
            members: Vec::new(alloc),
            events: 0,
        })?;
    }
    Ok(groups)
}

// Where the card's member goes: to the groups in turn.
fn place_for(card: u32, groups: usize) -> usize
    requires { 0 < groups }
    ensures { result < groups }
{
    card as usize % groups
}

// Makes the next post of a member and keeps it, as a try does where the board is busy. A member that is not to
// post stays as it is.
fn keep_post(board: &Board, member: &mut Member)
    requires { IsMember board.now member.old }
    ensures member { IsMember board.now member.new }
    ensures number { member.new.seat.number ≡ member.old.seat.number }
{
    member.seat.legal();
    if !member.seat.posted() && member.seat.is_due(board) {
        let post = next_post(&mut member.hand);
        member.hand.kept = Some(post);
    }
}

// The member, or where it is to be ahead the member with its first post kept.
fn prepared(board: &Board, mut member: Member, ahead: bool) -> Member
    requires { IsMember board.now member }
    ensures member { IsMember board.now result }
    ensures number { result.seat.number ≡ member.seat.number }
{
    if ahead {
        keep_post(board, &mut member);
    }
    member
}

// Puts the next card's member into the group at the place.
fn join(
    board: &Board,
    groups: &mut Vec<Group>,
    place: usize,
    card: u32,
    member: Member,
) -> Result<(), AllocError>
    requires groups { AreGroups board.now card groups.old.items }
    requires place { place < length groups.old.items }
    requires member { IsMember board.now member }
    requires card { member.seat.number ≡ card }
    ensures groups { IfOk result (λ _. AreGroups board.now (card + 1) groups.new.items) }
    ensures count { IfOk result (λ _. length groups.new.items ≡ length groups.old.items) }
{
    laws::groups_grow();
    let group = &mut groups[place];
    group.members.push(member)?;
    Ok(())
}

// All cards of a new board, shared among groups.
pub(crate) fn join_all(
    alloc: Global,
    board: &Board,
    seats: Seats,
    job: &Job<'_>,
    way: &Way,
) -> Result<Vec<Group>, Fail>
    requires seats { AreNewSeats board.now seats.items }
    requires ports { board.now.seats ≡ job.now.n }
    requires size { job.now.n ≤ MAX_PORTS }
    requires some { 0 < way.now.groups }
    ensures { IfOk result (λ groups. AreGroups board.now board.now.seats groups.items) }
{
    board.legal();
    laws::new_members_agree();
    let mut seats = seats;
    let mut groups = empty_groups(alloc, way.groups)?;
    for card in 0..job.n {
        let place = place_for(card, groups.len());
        let seat = seats.remove(0);
        let hand = hand_of(alloc, job, card)?;
        let member = prepared(board, Member { hand, seat }, way.ahead);
        join(board, &mut groups, place, card, member)?;
    }
    Ok(groups)
}

// Drives a group, whose gate is open.
fn drive_one(board: &Board, group: &mut Group, patience: u32)
    requires { IsGroup board.now group.old }
    ensures { IsDrivenGroup board.now patience group.old group.new }
{
    drive(group, board, &OpenGate, patience);
}

// Drives each group, `threads` at once.
fn drive_each<R: Threads + Sync>(
    rt: &R,
    board: &Board,
    groups: &mut [Group],
    threads: usize,
    patience: u32,
)
    requires groups { All (λ g. IsGroup board.now g) groups.old }
    requires threads { 0 < threads }
    ensures { (i : ℕ) (d : Group) → i < length groups.old → IsDrivenGroup board.now patience (slice_index_or groups.old i d) (slice_index_or groups.new i d) }
{
    thread::for_each_mut(
        rt,
        groups,
        threads,
        &|_, group| drive_one(board, group, patience),
    );
}

// Drives all groups of a board, as many at once as the way has threads.
pub(crate) fn drive_groups<R: Threads + Sync>(
    rt: &R,
    board: &Board,
    groups: &mut [Group],
    way: &Way,
)
    requires groups { AreGroups board.now board.now.seats groups.old }
    requires threads { 0 < way.now.threads }
    ensures { AreGroups board.now board.now.seats groups.new }
{
    board.legal();
    laws::driven_groups_stay();
    drive_each(rt, board, groups, way.threads, way.patience);
}

// Closes the board, and finishes what is left.
pub(crate) fn finish(
    alloc: Global,
    board: Board,
    groups: Vec<Group>,
) -> Result<(BoardState, Hands, u64), Fail>
    requires { AreGroups board board.seats groups.items }
    ensures { IfOk result (λ left. AreHandsOf left.1.items left.0) }
{
    board.legal();
    laws::disbanded_groups_agree();
    let seats = Vec::with_capacity(alloc, MAX_PORTS as usize)?;
    let hands = Vec::with_capacity(alloc, MAX_PORTS as usize)?;
    let (seats, mut hands) = disband(groups, seats, hands);
    let mut state = close_with(board, seats, &hands);
    let events = finish_alone(&mut hands, &mut state);
    Ok((state, hands, events))
}
