ghost use Rattle.std.specs.Prelude.{◌≡◌, ◌<◌, List, length, slice_index_or};
ghost use Rattle.slot_histories.specs.declared.events.Event.{Event};
ghost use Rattle.slot_histories.specs.Legal.{IsLegal};
ghost use Rattle.slot_histories.specs.Answers.{journal_of};
ghost use Rattle.board_state.specs.Boards.{IsSetup, no_slot};
ghost use Rattle.board_state.specs.JournalRows.{AreJournalRows};

use crossbar::Post;
use islip_rounds::RoundsUsed;
use slot_match::Match;
use std::marker::Model;

/// The decided slots of a board that is closed, and the least of the due cards' refused tries.
#[derive(Drop)]
pub struct Journal {
    pub(crate) journal: board_state::Journal,
    pub(crate) refused: u64,
}

impl Model for Journal {
    ghost use Rattle.slot_board.specs.States.{JournalValue};

    ghost Value = { JournalValue };

    ghost view = { λ j. record { setup = j.journal.setup; slots = j.journal.slots; events = j.journal.events; refused = j.refused } };
}

impl Journal {
    /// The number of ports of the switch, 1 to 64.
    pub fn ports(&self) -> u32
        ensures { result ≡ self.now.setup.ports }
    {
        self.journal.ports()
    }

    /// In how many rounds each slot was decided, 1 to 64.
    pub fn rounds(&self) -> u32
        ensures { result ≡ self.now.setup.rounds }
    {
        self.journal.rounds()
    }

    /// The most slots that could be posted, 1 to [`crate::MAX_SLOTS`].
    pub fn max_slots(&self) -> u32
        ensures { result ≡ self.now.setup.max_slots }
    {
        self.journal.max_slots()
    }

    /// How many slots were decided.
    pub fn slots(&self) -> u32
        ensures { result ≡ length self.now.slots }
    {
        self.journal.slots()
    }

    /// How many events there were: posts, decisions and takes.
    pub fn events(&self) -> u64
        ensures { result ≡ self.now.events }
    {
        self.journal.events()
    }

    /// What the line cards posted for the slot, by card.
    pub fn posts(&self, slot: u32) -> &[Post]
        requires { slot < length self.now.slots }
        ensures posts { result.now ≡ (slice_index_or self.now.slots slot no_slot).posts }
        ensures ports { length result.now ≡ self.now.setup.ports }
    {
        self.journal.posts(slot)
    }

    /// The slot's match.
    pub fn decided(&self, slot: u32) -> &Match
        requires { slot < length self.now.slots }
        ensures matched { result.now ≡ (slice_index_or self.now.slots slot no_slot).matched }
        ensures ports { length result.now ≡ self.now.setup.ports }
    {
        self.journal.decided(slot)
    }

    /// How the slot's rounds were used.
    pub fn used(&self, slot: u32) -> RoundsUsed
        requires { slot < length self.now.slots }
        ensures { result ≡ (slice_index_or self.now.slots slot no_slot).numbers }
    {
        self.journal.used(slot)
    }

    /// The least number of refused tries of the cards that were due when the board was closed. Where no
    /// card was due it says nothing of any card, and is the last value of a `u64`; that is also told where
    /// the least is no smaller.
    pub fn least_refused(&self) -> u64
        ensures { result ≡ self.now.refused }
    {
        self.refused
    }

    /// The slots are those of a legal list of events, as many as [`Journal::events`] says, on a board
    /// whose setup is within its limits. The rows of each slot are within the ports, and are kept until
    /// they are served.
    pub fn legal(&self)
        ensures legal { (events : List Event) × IsLegal self.now.setup events × (self.now.slots ≡ journal_of self.now.setup events)
            × (self.now.events ≡ length events) }
        ensures setup { IsSetup self.now.setup }
        ensures rows { AreJournalRows self.now.setup.ports self.now.slots }
    {
        self.journal.legal();
    }
}
