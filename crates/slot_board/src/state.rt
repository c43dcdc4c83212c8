ghost use Rattle.std.specs.Prelude.{◌≡◌, ◌<◌, ◌↔◌, IsTrue, [], ◌∷◌, ◌++◌, length};
ghost use Rattle.slot_histories.specs.Events.{decides, posted, takes_of};
ghost use Rattle.slot_histories.specs.Slots.{taken_at};
ghost use Rattle.slot_histories.specs.Legal.{Allows, IsLegal};
ghost use Rattle.slot_histories.specs.Answers.{answer_of, journal_of};
ghost use Rattle.slot_histories.specs.Tests.{is_allowed};
ghost use Rattle.board_state.specs.Boards.{IsSetup, book_of, HavePosted, IsFinished};
ghost use Rattle.board_state.specs.JournalRows.{AreJournalRows};
ghost use Rattle.slot_board.specs.States.{board_in};

use crate::journal::Journal;
use board_state::CardBook;
use crossbar::{Post, Taken};
use rotating_pick::Ports;
use slot_histories::{Answer, Event};
use std::marker::Model;

/// The state of a board that is closed, which one thread may go on with, and the least of the due cards'
/// refused tries. [`crate::Board::close`] alone makes it, and nothing changes that number.
#[derive(Drop)]
pub struct BoardState {
    pub(crate) state: board_state::BoardState,
    pub(crate) refused: u64,
}

impl Model for BoardState {
    ghost use Rattle.slot_board.specs.States.{StateValue};

    ghost Value = { StateValue };

    ghost view = { λ s. record { setup = s.state.setup; events = s.state.events; refused = s.refused } };
}

impl BoardState {
    /// Whether the event may come now.
    pub fn may(&self, event: &Event) -> bool
        ensures may { IsTrue result ↔ Allows self.now.setup self.now.events event.now }
        ensures test { result ≡ is_allowed self.now.setup self.now.events event.now }
    {
        self.state.may(event)
    }

    /// Makes the event, which may come, and answers it. Takes no memory.
    pub fn step(&mut self, event: Event) -> Answer
        requires { Allows self.old.setup self.old.events event }
        ensures board { self.new ≡ record self.old { events = self.old.events ++ event ∷ [] } }
        ensures answer { result ≡ answer_of self.old.setup self.old.events event }
    {
        self.state.step(event)
    }

    /// Makes the card's post, which may come: [`BoardState::step`] of the event, with the post lent.
    /// Takes no memory.
    pub fn put(&mut self, card: u32, post: &Post)
        requires { Allows self.old.setup self.old.events (Event.Post card post.now) }
        ensures { self.new ≡ record self.old { events = self.old.events ++ Event.Post card post.now ∷ [] } }
    {
        self.state.put(card, post);
    }

    /// Whether the next slot may be decided now: [`BoardState::may`] of the event.
    pub fn may_settle(&self) -> bool
        ensures { IsTrue result ↔ Allows self.now.setup self.now.events Event.Decide }
    {
        self.state.may_settle()
    }

    /// Decides the next slot, which may be decided: [`BoardState::step`] of the event. Takes no memory.
    pub fn settle(&mut self)
        requires { Allows self.old.setup self.old.events Event.Decide }
        ensures { self.new ≡ record self.old { events = self.old.events ++ Event.Decide ∷ [] } }
    {
        self.state.settle();
    }

    /// Whether the card may take now: [`BoardState::may`] of the event.
    pub fn may_draw(&self, card: u32) -> bool
        ensures { IsTrue result ↔ Allows self.now.setup self.now.events (Event.Take card) }
    {
        self.state.may_draw(card)
    }

    /// Makes the card's take, which may come, and answers what it took: [`BoardState::step`] of the
    /// event. Takes no memory.
    pub fn draw(&mut self, card: u32) -> Taken
        requires { Allows self.old.setup self.old.events (Event.Take card) }
        ensures board { self.new ≡ record self.old { events = self.old.events ++ Event.Take card ∷ [] } }
        ensures taken { result ≡ taken_at self.old.setup (posted self.old.events) card (takes_of card self.old.events) }
    {
        self.state.draw(card)
    }

    /// Where the card, one of the ports, stands.
    pub fn book(&self, card: u32) -> CardBook
        requires { card < self.now.setup.ports }
        ensures { result ≡ book_of (board_in self.now) card }
    {
        self.state.book(card)
    }

    /// The cards that have posted the next slot to be decided.
    pub fn posted(&self) -> Ports
        ensures { HavePosted self.now.setup self.now.events result }
    {
        self.state.posted()
    }

    /// Whether every card has taken a slot that is done.
    pub fn finished(&self) -> bool
        ensures { IsTrue result ↔ IsFinished (board_in self.now) }
    {
        self.state.finished()
    }

    /// The decided slots. The rows of each are within the ports, and are kept until they are served.
    pub fn journal(self) -> Journal
        ensures journal { result ≡ record {
          setup = self.setup;
          slots = journal_of self.setup self.events;
          events = length self.events;
          refused = self.refused;
        } }
        ensures rows { AreJournalRows result.setup.ports result.slots }
    {
        Journal {
            journal: self.state.journal(),
            refused: self.refused,
        }
    }

    /// The events are a legal list, the setup is within its limits, and the rows of the decided slots are
    /// within the ports and are kept until they are served.
    pub fn legal(&self)
        ensures legal { IsLegal self.now.setup self.now.events }
        ensures setup { IsSetup self.now.setup }
        ensures rows { AreJournalRows self.now.setup.ports (journal_of self.now.setup self.now.events) }
    {
        self.state.legal();
    }

    /// The number of ports of the switch, 1 to 64.
    pub fn ports(&self) -> u32
        ensures { result ≡ self.now.setup.ports }
    {
        self.state.ports()
    }

    /// In how many rounds each slot is decided, 1 to 64.
    pub fn rounds(&self) -> u32
        ensures { result ≡ self.now.setup.rounds }
    {
        self.state.rounds()
    }

    /// The most slots that are posted, 1 to [`crate::MAX_SLOTS`].
    pub fn max_slots(&self) -> u32
        ensures { result ≡ self.now.setup.max_slots }
    {
        self.state.max_slots()
    }

    /// How many slots were decided.
    pub fn decided_slots(&self) -> u32
        ensures { result ≡ decides self.now.events }
    {
        self.state.decided_slots()
    }

    /// How many events there were.
    pub fn events(&self) -> u64
        ensures { result ≡ length self.now.events }
    {
        self.state.events()
    }
}
