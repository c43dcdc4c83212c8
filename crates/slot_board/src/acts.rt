ghost use Rattle.std.specs.Prelude.{◌≡◌, ◌++◌};
ghost use Rattle.slot_histories.specs.Legal.{MayDecide};
ghost use Rattle.slot_board.specs.Turns.{numbers_of, decision_entries, post_adds, take_adds, StayLegal};
ghost use Rattle.slot_board.specs.DrawingSteps.{DrawnAnswers};

use board_state::BoardState;
use crossbar::{Post, Taken};
use rotating_pick::Ports;
use slot_histories::Event;
use turn_lock::{Act, Kept};

/// The state that the cards share, in a box, so that a turn moves a pointer alone. Between turns a slot
/// that all cards have posted is decided.
#[derive(Drop)]
pub(crate) struct KeptState {
    pub(crate) state: Box<BoardState>,
    ghost settled: { MayDecide state.value.setup state.value.events → ⊥ },
}

impl Kept for KeptState {
    ghost use Rattle.slot_board.specs.Turns.{numbers_of, MayAdd};

    type Entry = Event;

    ghost entries = { λ s. s.state.value.events };

    ghost numbers = { λ s. numbers_of s.state.value.setup };

    ghost may_add = { MayAdd };

    ghost may_add_none = { λ seat. tt };
}

/// A card posts. The last post of a slot decides it.
#[derive(Clone, Copy, Debug, PartialEq, Eq)]
pub(crate) struct PostAct<'a> {
    pub(crate) card: u32,
    pub(crate) post: &'a Post,
}

impl<'a> Act<KeptState> for PostAct<'a> {
    ghost use Rattle.slot_board.specs.Turns.{setup_of, post_adds, StayLegal};

    type Out = ();

    ghost adds = { λ act numbers events. post_adds act.card act.post.now numbers events };

    ghost answers = { λ act numbers events out. StayLegal (setup_of numbers) events (post_adds act.card act.post.now numbers events) };

    fn apply(self, kept: &mut KeptState) {
        add_post(&mut kept.state, self.card, self.post);
    }
}

/// What a try to take is answered: the card's part of its slot where it is ready, else the cards that have
/// posted it. It is one struct, so that the part is not copied through an enum.
#[derive(Clone, Copy, Debug, PartialEq, Eq)]
pub struct Drawn {
    pub(crate) ready: bool,
    pub(crate) posted: Ports,
    pub(crate) taken: Taken,
}

/// A card takes its part of its slot. Where the slot is not decided, it learns which cards have posted it.
#[derive(Clone, Copy, Debug, PartialEq, Eq)]
pub(crate) struct TakeAct {
    pub(crate) card: u32,
}

impl Act<KeptState> for TakeAct {
    ghost use Rattle.slot_board.specs.Turns.{setup_of, take_adds, StayLegal};
    ghost use Rattle.slot_board.specs.DrawingSteps.{DrawnAnswers};

    type Out = Drawn;

    ghost adds = { λ act numbers events. take_adds act.card numbers events };

    ghost answers = { λ act numbers events out. StayLegal (setup_of numbers) events (take_adds act.card numbers events)
        × DrawnAnswers (setup_of numbers) act.card events out };

    fn apply(self, kept: &mut KeptState) -> Drawn {
        add_take(&mut kept.state, self.card)
    }
}

// Notes the card's post where it may come, and decides the slot where that was its last post.
fn add_post(state: &mut BoardState, card: u32, post: &Post)
    requires { MayDecide state.old.setup state.old.events → ⊥ }
    ensures setup { state.new.setup ≡ state.old.setup }
    ensures events { state.new.events ≡ state.old.events ++ post_adds card post.now (numbers_of state.old.setup) state.old.events }
    ensures legal { StayLegal state.old.setup state.old.events (post_adds card post.now (numbers_of state.old.setup) state.old.events) }
    ensures settled { MayDecide state.new.setup state.new.events → ⊥ }
{
    state.legal();
    if state.may_put(card, post) {
        state.put(card, post);
        decide_if_full(state);
    }
    state.legal();
}

// Decides the next slot where all cards have posted it.
fn decide_if_full(state: &mut BoardState)
    ensures setup { state.new.setup ≡ state.old.setup }
    ensures events { state.new.events ≡ state.old.events ++ decision_entries state.old.setup state.old.events }
    ensures settled { MayDecide state.new.setup state.new.events → ⊥ }
{
    state.legal();
    if state.may_settle() {
        state.settle();
    }
}

// The card's part of its slot, or where that is not decided the cards that have posted it.
fn add_take(state: &mut BoardState, card: u32) -> Drawn
    requires { MayDecide state.old.setup state.old.events → ⊥ }
    ensures setup { state.new.setup ≡ state.old.setup }
    ensures events { state.new.events ≡ state.old.events ++ take_adds card (numbers_of state.old.setup) state.old.events }
    ensures legal { StayLegal state.old.setup state.old.events (take_adds card (numbers_of state.old.setup) state.old.events) }
    ensures answer { DrawnAnswers state.old.setup card state.old.events result }
    ensures settled { MayDecide state.new.setup state.new.events → ⊥ }
{
    state.legal();
    if state.may_draw(card) {
        let taken = state.draw(card);
        state.legal();
        Drawn {
            ready: true,
            posted: 0,
            taken,
        }
    } else {
        Drawn {
            ready: false,
            posted: state.posted(),
            taken: no_part(),
        }
    }
}

// A part of nothing, which stands where a card may not take.
fn no_part() -> Taken {
    Taken {
        slot: 0,
        served: None,
        cell: None,
        done: false,
    }
}
