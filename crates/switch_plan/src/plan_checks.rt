ghost use Rattle.std.specs.Prelude.{◌≡◌, ◌↔◌, ◌+◌, ◌<◌, ◌≤◌, false, length, take, flat_map, All, sum_by, IsTrue};
ghost use Rattle.switch_words.specs.Limits.{IsUpTo};
ghost use Rattle.switch_plan.specs.CountingSteps.{AreCountable, packets_of_cards};
ghost use Rattle.switch_plan.specs.OutputSteps.{room_at};
ghost use Rattle.switch_plan.specs.PortSteps.{AreSummable, AreBroughtBy, HasRooms};
ghost use Rattle.switch_plan.specs.CheckingSteps.{IsOwnCard, AreOwnCards, HaveRooms, AreTotals, AreWhole, IsConsistent, FitsCards};
ghost use Rattle.switch_plan.specs.GoodPlans.{IsGood, IsBurst, switch_plan_of};

use crate::limits::{MAX_CELLS, most_for};
use crate::plan::Plan;
use crate::port_rooms::{Brought, brought_by};
use crate::totals::{bytes_to, greatest_slots, messages_to, total_aside, total_work};
use card_core::{CardPlan, Planned};
use rotating_pick::{MAX_PORTS, MAX_ROUNDS, PORT_COUNT};
use switch_words::MAX_WORKERS;

impl Plan {
    /// Whether a job can be run by the plan: 1 to 64 cards that are well formed and sized for what the
    /// packets of all of them bring to their outputs, packets within the limits of the switch, the counts
    /// and `max_slots` that follow from the packets, and whole microseconds where outputs are written so.
    pub fn is_good(&self) -> bool
        ensures { IsTrue result ↔ (IsGood (switch_plan_of self.now) × IsBurst (switch_plan_of self.now)) }
    {
        self.has_sizes() && self.has_cards()
    }

    // Whether each card is well formed, and all else follows from the packets.
    fn has_cards(&self) -> bool
        requires { length self.now.cards.items ≤ MAX_PORTS }
        ensures { IsTrue result ↔ (AreOwnCards self.now.depth self.now.cards.items × IsConsistent self.now) }
    {
        are_own_cards(self.depth, &self.cards) && self.is_consistent()
    }

    // Whether the totals, the rooms and the unit are those that follow from the packets.
    fn is_consistent(&self) -> bool
        requires few { length self.now.cards.items ≤ MAX_PORTS }
        requires packets { All AreCountable (packets_of_cards self.now.cards.items) }
        ensures { IsTrue result ↔ IsConsistent self.now }
    {
        let cards: &[CardPlan] = &self.cards;
        let brought = brought_by_cards(cards);
        self.fits(cards, &brought[..cards.len()])
    }

    // Whether they are those of what these cards bring.
    fn fits(&self, cards: &[CardPlan], brought: &[Brought]) -> bool
        requires few { length cards.now ≤ MAX_PORTS }
        requires brought { AreBroughtBy (packets_of_cards cards.now) brought.now }
        requires fit { AreSummable brought.now }
        ensures { IsTrue result ↔ FitsCards self.now cards.now brought.now }
    {
        are_totals(self.max_slots, cards, brought)
            && self.has_aside(brought)
            && are_sized(cards, brought)
            && self.is_whole()
    }

    // Whether the numbers of cards, rounds and workers are within their limits.
    fn has_sizes(&self) -> bool
        ensures { IsTrue result ↔ (IsUpTo MAX_PORTS (length self.now.cards.items) × IsUpTo MAX_ROUNDS self.now.rounds × IsUpTo MAX_WORKERS self.now.workers) }
    {
        is_up_to(MAX_PORTS as usize, self.cards.len())
            && is_up_to(MAX_ROUNDS as usize, self.rounds as usize)
            && is_up_to(MAX_WORKERS as usize, self.workers as usize)
    }

    // Whether the packets that go nowhere are as many as the plan says.
    fn has_aside(&self, brought: &[Brought]) -> bool
        requires { AreSummable brought.now }
        ensures { IsTrue result ↔ (self.now.oversize + self.now.unrouted ≡ sum_by (λ port. port.aside) brought.now) }
    {
        u64::from(self.oversize) + u64::from(self.unrouted) == total_aside(brought)
    }

    // Whether the packets have times of whole microseconds, where outputs are written in microseconds.
    fn is_whole(&self) -> bool
        ensures { IsTrue result ↔ (self.now.nano ≡ false → All AreWhole (packets_of_cards self.now.cards.items)) }
    {
        self.nano || are_whole(&self.cards)
    }
}

// What the packets of each of these cards bring.
fn brought_by_cards(cards: &[CardPlan]) -> [Brought; PORT_COUNT]
    requires few { length cards.now ≤ MAX_PORTS }
    requires packets { All AreCountable (packets_of_cards cards.now) }
    ensures { AreBroughtBy (packets_of_cards cards.now) (take (length cards.now) result) }
{
    let mut brought = [Brought::nothing(); PORT_COUNT];
    for port in 0..cards.len() {
        brought[port] = brought_by(&cards[port].packets);
    }
    brought
}

// Whether the number is 1 to `greatest`.
fn is_up_to(greatest: usize, n: usize) -> bool
    ensures { IsTrue result ↔ IsUpTo greatest n }
{
    0 < n && n <= greatest
}

// Whether each card is well formed, of its port, of this switch, and with queues of this depth.
fn are_own_cards(depth: u32, cards: &[CardPlan]) -> bool
    requires { length cards.now ≤ MAX_PORTS }
    ensures { IsTrue result ↔ AreOwnCards depth cards.now }
{
    for port in 0..cards.len() {
        if !is_own_card(cards.len() as u32, depth, port as u32, &cards[port]) {
            return false;
        }
    }
    true
}

// Whether the card is.
fn is_own_card(ports: u32, depth: u32, port: u32, card: &CardPlan) -> bool
    ensures { IsTrue result ↔ IsOwnCard ports depth port card.now }
{
    card.card == port && card.n == ports && card.depth == depth && card.is_good()
}

// Whether the packets of all cards are within the limits of the switch, and a run of them ends before this slot.
fn are_totals(max_slots: u32, cards: &[CardPlan], brought: &[Brought]) -> bool
    requires brought { AreBroughtBy (packets_of_cards cards.now) brought.now }
    requires fit { AreSummable brought.now }
    ensures { IsTrue result ↔ AreTotals (length cards.now) max_slots (packets_of_cards cards.now) }
{
    let slots = greatest_slots(cards);
    let cells = total_work(brought);
    is_end(most_for(cards.len()), slots, cells, max_slots)
}

// Whether the slots and the cells are within the limit, and a run of as many ends before this slot.
fn is_end(most: u64, slots: u64, cells: u64, end: u32) -> bool
    requires { most ≤ MAX_CELLS }
    ensures { IsTrue result ↔ ((slots ≤ most) × (cells ≤ most) × (end ≡ slots + cells + 1)) }
{
    slots <= most && cells <= most && u64::from(end) == slots + cells + 1
}

// Whether each card has the rooms for what these ports bring to its output.
fn are_sized(cards: &[CardPlan], brought: &[Brought]) -> bool
    requires few { length cards.now ≤ MAX_PORTS }
    requires fit { AreSummable brought.now }
    ensures { IsTrue result ↔ HaveRooms brought.now cards.now }
{
    for output in 0..cards.len() {
        if !is_sized(output, &cards[output], brought) {
            return false;
        }
    }
    true
}

// Whether the card has the rooms for what these ports bring to this output.
fn is_sized(output: usize, card: &CardPlan, brought: &[Brought]) -> bool
    requires output { output < MAX_PORTS }
    requires fit { AreSummable brought.now }
    ensures { IsTrue result ↔ HasRooms brought.now output card.now }
{
    card.body_room == bytes_to(output, brought)
        && u64::from(card.packet_room) == messages_to(output, brought)
        && are_greatest(output, &card.sizes, brought)
}

// Whether these are the greatest messages of all flows of all ports to this output.
fn are_greatest(output: usize, sizes: &[u32], brought: &[Brought]) -> bool
    requires { output < MAX_PORTS }
    ensures { IsTrue result ↔ (sizes.now ≡ flat_map (λ port. (room_at port.rooms output).sizes) brought.now) }
{
    let mut rest = sizes;
    for port in brought {
        match rest.strip_prefix(&port.rooms[output].sizes) {
            Some(more) => rest = more,
            None => return false,
        }
    }
    rest.is_empty()
}

// Whether the packets of all cards have times of whole microseconds.
fn are_whole(cards: &[CardPlan]) -> bool
    ensures { IsTrue result ↔ All AreWhole (packets_of_cards cards.now) }
{
    for card in cards {
        if !are_whole_packets(&card.packets) {
            return false;
        }
    }
    true
}

// Whether these packets have.
fn are_whole_packets(packets: &[Planned]) -> bool
    ensures { IsTrue result ↔ AreWhole packets.now }
{
    packets.iter().all(|packet| packet.nanos % 1000 == 0)
}
