use card_core::CardOut;
use card_worker::{Group, Hands, Member};
use pcap_records::Link;
use service_bound::WaitMeter;
use slot_board::{Board, Seats};
use std::marker::Model;

/// What a plan says beside its cards.
#[derive(Clone, Copy, Debug)]
pub struct Terms {
    /// Whether outputs are written in nanoseconds.
    pub nano: bool,
    /// The link type of all captures.
    pub link: Link,
    /// Rounds of a slot.
    pub rounds: u32,
    /// The most cells of a queue.
    pub depth: u32,
    /// Workers.
    pub workers: u32,
    /// The run ends before this slot.
    pub max_slots: u32,
    /// How many packets are too long to be forwarded.
    pub oversize: u32,
    /// How many others have no route.
    pub unrouted: u32,
    /// How many packets all ports have.
    pub packets: u32,
}

/// Empty lists with room for all that a run makes.
#[derive(Drop)]
pub(crate) struct Rooms {
    /// A group for each worker, but no more than ports.
    pub(crate) groups: Vec<Group>,
    /// The seats when the board is closed.
    pub(crate) seats: Seats,
    /// The hands when the board is closed.
    pub(crate) hands: Hands,
    /// What the cards leave.
    pub(crate) outputs: Vec<CardOut>,
    /// A meter that has noted no slot.
    pub(crate) meter: WaitMeter,
}

/// All that a run needs: its board, the cards with their seats, and room for what it leaves.
///
/// Contracts see the plan.
#[derive(Drop)]
pub struct Ready {
    pub(crate) terms: Terms,
    pub(crate) board: Board,
    pub(crate) members: Vec<Member>,
    pub(crate) rooms: Rooms,
}

impl Model for Ready {
    ghost use Rattle.switch_plan.specs.GoodPlans.{SwitchPlan};
    ghost use Rattle.switch_jobs.specs.ReadinessSteps.{plans_in, plan_with, IsReady};

    ghost Value = { SwitchPlan };

    ghost view = { λ r. plan_with r.terms (plans_in r.members.items) };

    ghost invariant = { λ r. IsReady r.terms r.board r.members.items r.rooms };
}
