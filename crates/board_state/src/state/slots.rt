ghost use Rattle.std.specs.Prelude.{◌≡◌, ◌+◌, ◌<◌, ◌≤◌, length};
ghost use Rattle.slot_histories.specs.Events.{posts_of, decides, posted};
ghost use Rattle.slot_histories.specs.Slots.{slot_posts, decision_at, is_done_at, is_done_before, crossed, served_at, taken_at, row_before, served_before};

use crate::posts::{crossing, posts_at};
use crate::state::BoardState;
use cell_cutter::Cell;
use crossbar::{Post, Taken};
use islip_rounds::RoundsUsed;
use slot_match::{Match, Row, Served};

impl BoardState {
    // What the cards posted for the slot, which is decided.
    pub(crate) fn decided_posts(&self, slot: u32) -> &[Post]
        requires { slot < decides self.now.events }
        ensures posts { result.now ≡ slot_posts self.now.setup.ports (posted self.now.events) slot }
        ensures ports { length result.now ≡ self.now.setup.ports }
    {
        posts_at(&self.posts, slot as usize, self.ports as usize)
    }

    // The match of the slot, which is decided.
    pub(crate) fn matched(&self, slot: u32) -> &Match
        requires { slot < decides self.now.events }
        ensures matched { result.now ≡ (decision_at self.now.setup (posted self.now.events) slot).matched }
        ensures ports { length result.now ≡ self.now.setup.ports }
    {
        &self.matches[slot as usize]
    }

    // The numbers of the slot, which is decided.
    pub(crate) fn used(&self, slot: u32) -> RoundsUsed
        requires { slot < decides self.now.events }
        ensures { result ≡ (decision_at self.now.setup (posted self.now.events) slot).numbers }
    {
        self.numbers[slot as usize]
    }

    // Whether one of the first slots, which are decided, is done.
    pub(super) fn is_done_before(&self, slots: u32) -> bool
        requires { slots ≤ decides self.now.events }
        ensures { result ≡ is_done_before self.now.setup.ports (posted self.now.events) slots }
    {
        self.done && slots as usize == self.matches.len()
    }

    // Whether the slot, which is decided, is done.
    fn is_done(&self, slot: u32) -> bool
        requires { slot < decides self.now.events }
        ensures { result ≡ is_done_at self.now.setup.ports (posted self.now.events) slot }
    {
        self.legal();
        self.is_done_before(slot + 1)
    }

    // The row that the card posted for the slot before.
    pub(super) fn last_row(&self, card: u32, slot: u32) -> Row
        requires card_in { card < self.now.setup.ports }
        requires slot_in { slot ≤ length (posts_of card self.now.events) }
        ensures { result ≡ row_before (posted self.now.events) card slot }
    {
        if slot == 0 {
            Row::empty()
        } else {
            self.posts[(slot as usize - 1) * (self.ports as usize) + card as usize].row
        }
    }

    // What it was served there.
    pub(super) fn last_served(&self, card: u32, slot: u32) -> Option<Served>
        requires card_in { card < self.now.setup.ports }
        requires slot_in { slot ≤ decides self.now.events }
        ensures { result ≡ served_before self.now.setup (posted self.now.events) card slot }
    {
        if slot == 0 {
            None
        } else {
            self.part_of(card, slot - 1)
        }
    }

    // The card's part of the slot, which is decided. That of the last slot stands ready.
    fn part_of(&self, card: u32, slot: u32) -> Option<Served>
        requires card_in { card < self.now.setup.ports }
        requires slot_in { slot < decides self.now.events }
        ensures { result ≡ served_at self.now.setup (posted self.now.events) card slot }
    {
        if slot as usize + 1 == self.matches.len() {
            self.parts[card as usize]
        } else {
            self.matched(slot).served(card)
        }
    }

    // The cell that crosses to the card's output in the slot.
    fn cell_for(&self, card: u32, slot: u32) -> Option<Cell>
        requires card_in { card < self.now.setup.ports }
        requires slot_in { slot < decides self.now.events }
        ensures { result ≡ crossed self.now.setup (posted self.now.events) card slot }
    {
        if slot == 0 {
            None
        } else {
            crossing(&self.posts, slot as usize, self.matched(slot - 1), card)
        }
    }

    // What the card takes of the slot.
    pub(super) fn taken_of(&self, card: u32, slot: u32) -> Taken
        requires card_in { card < self.now.setup.ports }
        requires slot_in { slot < decides self.now.events }
        ensures { result ≡ taken_at self.now.setup (posted self.now.events) card slot }
    {
        Taken {
            slot,
            served: self.part_of(card, slot),
            cell: self.cell_for(card, slot),
            done: self.is_done(slot),
        }
    }
}
