//! Jobs that are made ready to run.

ghost use Rattle.std.specs.Prelude.{◌≡◌, ◌+◌, ◌<◌, ◌≤◌, ◌^◌, ℕ, [], false, None, Some, IfOk, length, map, slice_get, sum_by};
ghost use Rattle.turn_lock.specs.Seats.{AreNewSeats};
ghost use Rattle.rotating_pick.specs.declared.limits.TheConstants.{MAX_PORTS};
ghost use Rattle.card_core.specs.declared.plan.CardPlan.{CardPlan};
ghost use Rattle.card_core.specs.Plans.{plan_of, IsGoodPlan, IsSmallPlan};
ghost use Rattle.card_core.specs.Cards.{IsAfter};
ghost use Rattle.switch_plan.specs.GoodPlans.{switch_plan_of, packets_in, IsGood, IsBurst};
ghost use Rattle.switch_jobs.specs.ReadinessSteps.{plans_in, plan_with, AreMembers, AreEmptyGroups, HaveRoomFor, AreRooms};

use crate::ready::{Ready, Rooms, Terms};
use card_core::{Card, CardPlan};
use card_worker::{Group, Hand, Member, laws};
use rotating_pick::OutOfMemory;
use service_bound::WaitMeter;
use slot_board::{Board, Seats};
use std::alloc::{AllocError, Global};
use switch_plan::Plan;

/// All that a run of the plan needs: it takes all memory of the run. The only error is out of memory.
pub fn ready(alloc: Global, plan: Plan) -> Result<Ready, OutOfMemory>
    requires good { IsGood (switch_plan_of plan) }
    requires burst { IsBurst (switch_plan_of plan) }
    ensures { IfOk result (λ ready. ready ≡ switch_plan_of plan) }
{
    let terms = terms_of(&plan);
    let ports = plan.cards.len() as u32;
    let (board, seats) = Board::make(alloc, ports, plan.rounds, plan.max_slots)?;
    let rooms = rooms_for(alloc, ports, plan.workers)?;
    let members = members_of(alloc, &board, plan.cards, seats)?;
    Ok(Ready {
        terms,
        board,
        members,
        rooms,
    })
}

/// What the plan says beside its cards, with the number of packets of all of them.
pub fn terms_of(plan: &Plan) -> Terms
    requires good { IsGood (switch_plan_of plan.now) }
    requires burst { IsBurst (switch_plan_of plan.now) }
    ensures plan { plan_with result (map plan_of plan.now.cards.items) ≡ switch_plan_of plan.now }
    ensures packets { result.packets ≡ sum_by length (packets_in (switch_plan_of plan.now)) }
{
    Terms {
        nano: plan.nano,
        link: plan.link,
        rounds: plan.rounds,
        depth: plan.depth,
        workers: plan.workers,
        max_slots: plan.max_slots,
        oversize: plan.oversize,
        unrouted: plan.unrouted,
        packets: packet_count(&plan.cards),
    }
}

// How many packets the cards have.
fn packet_count(cards: &[CardPlan]) -> u32
    requires { sum_by (λ card. length card.packets.items) cards.now < 2 ^ 32 }
    ensures { result ≡ sum_by (λ card. length card.packets.items) cards.now }
{
    let mut count: u32 = 0;
    for card in cards {
        count += card.packets.len() as u32;
    }
    count
}

// A member of the board for each card.
fn members_of(
    alloc: Global,
    board: &Board,
    cards: Vec<CardPlan>,
    seats: Seats,
) -> Result<Vec<Member>, OutOfMemory>
    requires seats { AreNewSeats board.now seats.items }
    requires ports { board.now.seats ≡ length cards.items }
    requires good { (port : ℕ) (card : CardPlan) → slice_get cards.items port ≡ Some card → IsGoodPlan (plan_of card) }
    requires small { (port : ℕ) (card : CardPlan) → slice_get cards.items port ≡ Some card → IsSmallPlan (plan_of card) }
    requires sized { (port : ℕ) (card : CardPlan) → slice_get cards.items port ≡ Some card → (card.card ≡ port) × (card.n ≡ length cards.items) }
    ensures members { IfOk result (λ members. AreMembers board.now members.items) }
    ensures plans { IfOk result (λ members. plans_in members.items ≡ map plan_of cards.items) }
{
    board.legal();
    laws::new_members_agree();
    let mut members = Vec::with_capacity(alloc, cards.len())?;
    let mut seats = seats;
    for card in cards {
        let hand = hand_of(alloc, card)?;
        let seat = seats.remove(0);
        members.push_reserved(Member { hand, seat });
    }
    Ok(members)
}

// A new card of the plan.
fn hand_of(alloc: Global, plan: CardPlan) -> Result<Hand, OutOfMemory>
    requires good { IsGoodPlan (plan_of plan) }
    requires small { IsSmallPlan (plan_of plan) }
    ensures kept { IfOk result (λ hand. hand.kept ≡ None) }
    ensures after { IfOk result (λ hand. IsAfter hand.card [] false) }
    ensures plan { IfOk result (λ hand. hand.card.sends.plan ≡ plan_of plan) }
{
    let card = Card::make(alloc, plan)?;
    Ok(Hand { card, kept: None })
}

// Room for a run with `ports` ports and `workers` workers.
fn rooms_for(alloc: Global, ports: u32, workers: u32) -> Result<Rooms, OutOfMemory>
    requires ports { (0 < ports) × (ports ≤ MAX_PORTS) }
    requires workers { 0 < workers }
    ensures { IfOk result (λ rooms. AreRooms ports rooms) }
{
    let room = ports as usize;
    Ok(Rooms {
        groups: empty_groups(alloc, workers.min(ports), room)?,
        seats: Vec::with_capacity(alloc, room)?,
        hands: Vec::with_capacity(alloc, room)?,
        outputs: Vec::with_capacity(alloc, room)?,
        meter: WaitMeter::make(alloc, ports)?,
    })
}

// `count` groups without members, with room for `room` members each.
fn empty_groups(alloc: Global, count: u32, room: usize) -> Result<Vec<Group>, AllocError>
    ensures count { IfOk result (λ groups. length groups.items ≡ count) }
    ensures empty { IfOk result (λ groups. AreEmptyGroups groups.items) }
    ensures room { IfOk result (λ groups. HaveRoomFor room groups.items) }
{
    let mut groups = Vec::with_capacity(alloc, count as usize)?;
    for worker in 0..count {
        groups.push(Group {
            worker,
            members: Vec::with_capacity(alloc, room)?,
            events: 0,
        })?;
    }
    Ok(groups)
}
