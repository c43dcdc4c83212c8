ghost use Rattle.std.specs.Prelude.{◌≡◌, ℕ, ◌+◌, ◌<◌, ◌↔◌, length, IsTrue};
ghost use Rattle.slot_histories.specs.Events.{posts_of, decides};
ghost use Rattle.slot_histories.specs.Legal.{MayPost, MayDecide, MayTake, Allows};

use crate::acceptance::is_accepted;
use crate::state::BoardState;
use crossbar::Post;
use rotating_pick::{all, is_subset};
use slot_histories::Event;

impl BoardState {
    // Whether the event may come now.
    pub(super) fn is_possible(&self, event: &Event) -> bool
        ensures { IsTrue result ↔ Allows self.now.setup self.now.events event.now }
    {
        match event {
            Event::Post { card, post } => self.may_post(*card, post),
            Event::Decide => self.may_decide(),
            Event::Take { card } => self.may_take(*card),
        }
    }

    pub(super) fn may_post(&self, card: u32, post: &Post) -> bool
        ensures { IsTrue result ↔ MayPost self.now.setup self.now.events card post.now }
    {
        if card >= self.ports {
            return false;
        }
        let slot = self.takes(card);
        if slot != self.posted[card as usize]
            || slot >= self.max_slots
            || self.is_done_before(slot)
        {
            return false;
        }
        let last = self.last_row(card, slot);
        is_accepted(self.ports, card, &last, self.last_served(card, slot), post)
    }

    pub(super) fn may_decide(&self) -> bool
        ensures { IsTrue result ↔ MayDecide self.now.setup self.now.events }
    {
        is_subset(all(self.ports), self.posted_next)
    }

    pub(super) fn may_take(&self, card: u32) -> bool
        ensures { IsTrue result ↔ MayTake self.now.setup self.now.events card }
    {
        card < self.ports
            && self.taken[card as usize] < self.posted[card as usize]
            && (self.taken[card as usize] as usize) < self.matches.len()
    }
}
