ghost use Rattle.std.specs.Prelude.{◌≡◌, ℕ, ◌+◌, ◌<◌, ◌≤◌, ◌↔◌, [], length, IsTrue, IfOk};
ghost use Rattle.slot_histories.specs.declared.events.Event.{Event};
ghost use Rattle.slot_histories.specs.Events.{takes_of, decides, posted};
ghost use Rattle.slot_histories.specs.Slots.{taken_at};
ghost use Rattle.slot_histories.specs.Legal.{Allows, IsLegal};
ghost use Rattle.slot_histories.specs.Answers.{answer_of, journal_of};
ghost use Rattle.slot_histories.specs.Tests.{is_allowed};
ghost use Rattle.board_state.specs.JournalRows.{AreJournalRows};
ghost use Rattle.board_state.specs.Boards.{IsSetup, with_event, book_of, HavePosted, IsFinished};

use crate::books::CardBook;
use crate::counts::{Counts, no_counts};
use crate::journal::Journal;
use crate::limits::{MAX_SLOTS, MAX_SLOTS_WIDE};
use crossbar::{Post, Taken};
use eslip_rounds::Scratch;
use islip_rounds::RoundsUsed;
use pointer_state::Pointers;
use rotating_pick::{MAX_PORTS, MAX_ROUNDS, OutOfMemory, PORT_COUNT, Ports};
use slot_histories::{Answer, Event};
use slot_match::{Match, Row, Served};
use std::alloc::{AllocError, Global};
use std::marker::Model;

mod additions;
mod permissions;
mod slots;

/// The state of a board: what was posted, decided and taken.
///
/// Contracts see its setup and the list of its events. All of its memory is taken by
/// [`BoardState::make`].
#[derive(Drop)]
pub struct BoardState {
    ports: u32,
    rounds: u32,
    max_slots: u32,
    // For each card how many slots it posted and took.
    posted: Counts,
    taken: Counts,
    // The cards that have posted the slot that is decided next.
    posted_next: Ports,
    pointers: Pointers,
    // Each card's part of the slot that was decided last.
    parts: [Option<Served>; PORT_COUNT],
    // The rows of that slot, from which it was decided.
    rows: [Row; PORT_COUNT],
    // What a decision works in.
    scratch: Scratch,
    // Whether a decided slot is done. It is the last, since no card posts after it.
    done: bool,
    // Slot by slot and card by card.
    posts: Vec<Post>,
    matches: Vec<Match>,
    numbers: Vec<RoundsUsed>,
    // A byte for each event.
    order: Vec<u8>,
}

impl Model for BoardState {
    ghost use Rattle.board_state.specs.Boards.{BoardValue};

    ghost Value = { BoardValue };

    ghost use Rattle.board_state.specs.FieldSteps.{board_of, AreKept};

    ghost view = { board_of };

    ghost invariant = { AreKept };
}

impl BoardState {
    /// A board of a switch of `n` ports, with `rounds` rounds a slot, each from 1 to 64, and on which
    /// at most `max_slots` slots are posted, from 1 to [`MAX_SLOTS`], and to [`MAX_SLOTS_WIDE`] for more
    /// than 32 ports. Nothing has happened on it.
    pub fn make(
        alloc: Global,
        n: u32,
        rounds: u32,
        max_slots: u32,
    ) -> Result<BoardState, OutOfMemory>
        requires ports { (0 < n) × (n ≤ MAX_PORTS) }
        requires rounds { (0 < rounds) × (rounds ≤ MAX_ROUNDS) }
        requires slots { (0 < max_slots) × (max_slots ≤ MAX_SLOTS) × (32 < n → max_slots ≤ MAX_SLOTS_WIDE) }
        ensures { IfOk result (λ s. s ≡ record { setup = record { ports = n; rounds = rounds; max_slots = max_slots }; events = [] }) }
    {
        let slots = max_slots as usize;
        let posts = Vec::with_capacity(alloc, slots * n as usize)?;
        let matches = Vec::with_capacity(alloc, slots)?;
        let numbers = Vec::with_capacity(alloc, slots)?;
        let order = Vec::with_capacity(alloc, (2 * n as usize + 1) * slots)?;
        Ok(BoardState {
            ports: n,
            rounds,
            max_slots,
            posted: no_counts(),
            taken: no_counts(),
            posted_next: 0,
            pointers: Pointers::new(n),
            parts: [None; PORT_COUNT],
            rows: [Row::empty(); PORT_COUNT],
            scratch: Scratch::new(),
            done: false,
            posts,
            matches,
            numbers,
            order,
        })
    }

    /// Whether the event may come now.
    pub fn may(&self, event: &Event) -> bool
        ensures may { IsTrue result ↔ Allows self.now.setup self.now.events event.now }
        ensures test { result ≡ is_allowed self.now.setup self.now.events event.now }
    {
        self.legal();
        self.is_possible(event)
    }

    /// Makes the event, which may come, and answers it. Takes no memory.
    pub fn step(&mut self, event: Event) -> Answer
        requires { Allows self.old.setup self.old.events event }
        ensures board { self.new ≡ with_event self.old event }
        ensures answer { result ≡ answer_of self.old.setup self.old.events event }
    {
        match event {
            Event::Post { card, post } => {
                self.add_post(card, &post);
                Answer::Posted
            }
            Event::Decide => Answer::Decided(self.add_decision()),
            Event::Take { card } => Answer::Took(self.add_take(card)),
        }
    }

    /// Whether the card may post this now: [`BoardState::may`] of the event, with the post lent.
    pub fn may_put(&self, card: u32, post: &Post) -> bool
        ensures may { IsTrue result ↔ Allows self.now.setup self.now.events (Event.Post card post.now) }
        ensures test { result ≡ is_allowed self.now.setup self.now.events (Event.Post card post.now) }
    {
        self.legal();
        self.may_post(card, post)
    }

    /// Makes the card's post, which may come: [`BoardState::step`] of the event, with the post lent.
    /// Takes no memory.
    pub fn put(&mut self, card: u32, post: &Post)
        requires { Allows self.old.setup self.old.events (Event.Post card post.now) }
        ensures { self.new ≡ with_event self.old (Event.Post card post.now) }
    {
        self.add_post(card, post);
    }

    /// Whether the next slot may be decided now: [`BoardState::may`] of the event.
    pub fn may_settle(&self) -> bool
        ensures may { IsTrue result ↔ Allows self.now.setup self.now.events Event.Decide }
        ensures test { result ≡ is_allowed self.now.setup self.now.events Event.Decide }
    {
        self.legal();
        self.may_decide()
    }

    /// Decides the next slot, which may be decided: [`BoardState::step`] of the event. Takes no memory.
    pub fn settle(&mut self)
        requires { Allows self.old.setup self.old.events Event.Decide }
        ensures { self.new ≡ with_event self.old Event.Decide }
    {
        self.add_decision();
    }

    /// Whether the card may take now: [`BoardState::may`] of the event.
    pub fn may_draw(&self, card: u32) -> bool
        ensures may { IsTrue result ↔ Allows self.now.setup self.now.events (Event.Take card) }
        ensures test { result ≡ is_allowed self.now.setup self.now.events (Event.Take card) }
    {
        self.legal();
        self.may_take(card)
    }

    /// Makes the card's take, which may come, and answers what it took: [`BoardState::step`] of the
    /// event. Takes no memory.
    pub fn draw(&mut self, card: u32) -> Taken
        requires { Allows self.old.setup self.old.events (Event.Take card) }
        ensures board { self.new ≡ with_event self.old (Event.Take card) }
        ensures taken { result ≡ taken_at self.old.setup (posted self.old.events) card (takes_of card self.old.events) }
    {
        self.add_take(card)
    }

    /// Where the card, one of the ports, stands.
    pub fn book(&self, card: u32) -> CardBook
        requires { card < self.now.setup.ports }
        ensures { result ≡ book_of self.now card }
    {
        let slot = self.takes(card);
        CardBook {
            card,
            slot,
            posted: slot < self.posted[card as usize],
            done: self.is_done_before(slot),
        }
    }

    /// The cards that have posted the next slot to be decided.
    pub fn posted(&self) -> Ports
        ensures { HavePosted self.now.setup self.now.events result }
    {
        self.posted_next
    }

    /// Whether every card has taken a slot that is done.
    pub fn finished(&self) -> bool
        ensures { IsTrue result ↔ IsFinished self.now }
    {
        for taker in 0..self.ports {
            if !self.is_done_before(self.takes(taker)) {
                return false;
            }
        }
        true
    }

    /// The decided slots. The rows of each are within the ports, and are kept until they are served.
    pub fn journal(self) -> Journal
        ensures journal { result ≡ record { setup = self.setup; slots = journal_of self.setup self.events; events = length self.events } }
        ensures rows { AreJournalRows result.setup.ports result.slots }
    {
        self.legal();
        Journal { board: self }
    }

    /// The events are a legal list, the setup is within its limits, and the rows of the decided slots are
    /// within the ports and are kept until they are served.
    pub fn legal(&self)
        ensures legal { IsLegal self.now.setup self.now.events }
        ensures setup { IsSetup self.now.setup }
        ensures rows { AreJournalRows self.now.setup.ports (journal_of self.now.setup self.now.events) }
    {
        // Reads a field: that tells the proof what the type says of its value.
        let _ = &self.ports;
    }

    /// The number of ports of the switch, 1 to 64.
    pub fn ports(&self) -> u32
        ensures { result ≡ self.now.setup.ports }
    {
        self.ports
    }

    /// In how many rounds each slot is decided, 1 to 64.
    pub fn rounds(&self) -> u32
        ensures { result ≡ self.now.setup.rounds }
    {
        self.rounds
    }

    /// The most slots that are posted, 1 to [`MAX_SLOTS`].
    pub fn max_slots(&self) -> u32
        ensures { result ≡ self.now.setup.max_slots }
    {
        self.max_slots
    }

    /// How many slots were decided.
    pub fn decided_slots(&self) -> u32
        ensures { result ≡ decides self.now.events }
    {
        self.matches.len() as u32
    }

    /// How many events there were.
    pub fn events(&self) -> u64
        ensures { result ≡ length self.now.events }
    {
        self.order.len() as u64
    }

    // How many slots the card took.
    fn takes(&self, card: u32) -> u32
        requires { card < self.now.setup.ports }
        ensures value { result ≡ takes_of card self.now.events }
        ensures decided { result ≤ decides self.now.events }
    {
        self.taken[card as usize]
    }
}
