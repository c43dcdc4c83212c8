ghost use Rattle.std.specs.Prelude.{◌≡◌, ℕ, ◌+◌, ◌<◌, List, [], ◌∷◌, ◌++◌, ◌↔◌, length, Option, true, false, IfOk, IsTrue};
ghost use Rattle.slot_match.specs.declared.matching.Served.{Served};
ghost use Rattle.card_core.specs.Plans.{IsGoodPlan, IsSmallPlan, plan_of};
ghost use Rattle.card_core.specs.Posts.{post_at, IsServable};
ghost use Rattle.card_core.specs.States.{HasSent};

use crate::arrivals::{enter, next_arrival};
use crate::cells::cell_for;
use crate::limits::MAX_SLOTS;
use crate::plan::CardPlan;
use crate::posts::is_more;
use crate::queues::Queues;
use crate::rooms::count_rooms;
use crate::served_parts::is_servable;
use cell_cutter::Cell;
use crossbar::Post;
use rotating_pick::OutOfMemory;
use slot_match::{Row, Served};
use std::alloc::Global;
use std::marker::Model;

/// What a line card keeps of what it sends.
#[derive(Drop)]
pub(crate) struct Ingress {
    plan: CardPlan,
    next: u32,
    slot: u32,
    posted: bool,
    granted: Option<Cell>,
    row: Row,
    admitted: u32,
    dropped: u32,
    queues: Queues,
}

impl Model for Ingress {
    ghost use Rattle.std.specs.Prelude.{List, Option};
    ghost use Rattle.slot_match.specs.declared.matching.Served.{Served};
    ghost use Rattle.card_core.specs.Plans.{plan_of};
    ghost use Rattle.card_core.specs.States.{State, HasSent, state_of};

    ghost Value = { State };

    ghost view = { λ s. state_of (plan_of s.plan) s.next s.slot s.posted s.granted s.row s.admitted s.dropped s.queues.unicast s.queues.multicast };

    ghost invariant = { λ s. (served : List (Option Served))
        × HasSent (state_of (plan_of s.plan) s.next s.slot s.posted s.granted s.row s.admitted s.dropped s.queues.unicast s.queues.multicast) served s.posted };
}

impl Ingress {
    /// A card of a good plan within the limits that has posted and was served nothing.
    pub(crate) fn make(alloc: Global, plan: CardPlan) -> Result<Ingress, OutOfMemory>
        requires good { IsGoodPlan (plan_of plan) }
        requires small { IsSmallPlan (plan_of plan) }
        ensures sent { IfOk result (λ card. HasSent card [] false) }
        ensures plan { IfOk result (λ card. card.plan ≡ plan_of plan) }
    {
        let rooms = count_rooms(alloc, plan.n, &plan.packets)?;
        let queues = Queues::make(alloc, plan.depth, &rooms)?;
        Ok(Ingress {
            plan,
            next: 0,
            slot: 0,
            posted: false,
            granted: None,
            row: Row::empty(),
            admitted: 0,
            dropped: 0,
            queues,
        })
    }

    /// How many packets were admitted.
    pub(crate) fn admitted(&self) -> u32
        ensures { result ≡ self.now.admitted }
    {
        self.admitted
    }

    /// How many packets were dropped.
    pub(crate) fn dropped(&self) -> u32
        ensures { result ≡ self.now.dropped }
    {
        self.dropped
    }

    /// Whether the card has posted the slot, and the part may be served of its row.
    pub(crate) fn may_take(&self, slot: u32, served: Option<Served>) -> bool
        ensures { IsTrue result ↔ ((self.now.posted ≡ true) × (slot ≡ self.now.slot) × IsServable self.now.row served) }
    {
        self.is_at(slot) && is_servable(&self.row, served)
    }

    // Whether the card has posted the slot and not taken it.
    fn is_at(&self, slot: u32) -> bool
        ensures { IsTrue result ↔ ((self.now.posted ≡ true) × (slot ≡ self.now.slot)) }
    {
        self.posted && slot == self.slot
    }

    /// Whether the card has posted since its last take.
    pub(crate) fn posted(&self) -> bool
        ensures { result ≡ self.now.posted }
    {
        self.posted
    }

    /// The slot to post, or posted and not taken.
    pub(crate) fn slot(&self) -> u32
        ensures { result ≡ self.now.slot }
    {
        self.slot
    }

    /// What the card posts in its slot, after the packet that arrives there went into its queue.
    pub(crate) fn post(&mut self) -> Post
        requires posted { self.old.posted ≡ false }
        requires room { self.old.slot < MAX_SLOTS }
        ensures plan { self.new.plan ≡ self.old.plan }
        ensures post { (served : List (Option Served)) → HasSent self.old served false → result ≡ post_at self.old.plan served (length served) }
        ensures after { (served : List (Option Served)) → HasSent self.old served false → HasSent self.new served true }
    {
        let arrived = next_arrival(&self.plan.packets, self.next, self.slot);
        let count = enter(&mut self.queues, self.next, arrived);
        self.next += count.packets;
        self.admitted += count.admitted;
        self.dropped += count.dropped;
        let row = self.queues.row();
        self.row = row;
        self.posted = true;
        Post {
            row,
            cell: self.granted,
            more: is_more(self.next as usize, self.plan.packets.len(), &row),
        }
    }

    /// Takes what was served: the first cell of its queue, or nothing.
    pub(crate) fn take(&mut self, served: Option<Served>)
        requires posted { self.old.posted ≡ true }
        requires room { self.old.slot < MAX_SLOTS }
        requires servable { IsServable self.old.row served }
        ensures plan { self.new.plan ≡ self.old.plan }
        ensures after { (before : List (Option Served)) → HasSent self.old before true → HasSent self.new (before ++ served ∷ []) false }
    {
        self.granted = match served {
            Some(part) => {
                let name = self.queues.leave(part);
                Some(cell_for(&self.plan, name, part.kind))
            }
            None => None,
        };
        self.posted = false;
        self.slot += 1;
    }
}
