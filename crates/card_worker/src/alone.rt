ghost use Rattle.std.specs.Prelude.{◌≡◌, ◌<◌, ◌≤◌, ◌+◌, ◌*◌, ℕ, true, false, List, length};
ghost use Rattle.card_worker.specs.declared.hands.Hand.{Hand};
ghost use Rattle.slot_histories.specs.Events.{takes_of, posts_of, posted};
ghost use Rattle.slot_histories.specs.Slots.{is_done_before};
ghost use Rattle.slot_histories.specs.Legal.{MayTake, MayDecide, IsLegal};
ghost use Rattle.card_worker.specs.TryingSteps.{one_if};
ghost use Rattle.card_worker.specs.Alone.{IsHandOf, AreHandsOf, GoesOn, IsOver};
ghost use Rattle.card_worker.specs.AloneSteps.{plans_of, AfterAct, AfterTurns};

use crate::hands::{Hand, Hands};
use crate::tries::{forget, give, next_post};
use slot_board::BoardState;

/// Makes events of the cards and decisions until no more may come. Then each card has taken all that it
/// posted, and is done or has used all slots. The cards keep their plans. The events go on from those before,
/// as one legal list. Answers how many events came.
pub fn finish_alone(hands: &mut Hands, state: &mut BoardState) -> u64
    requires { AreHandsOf hands.old.items state.old }
    ensures hands { AreHandsOf hands.new.items state.new }
    ensures plans { plans_of hands.new.items ≡ plans_of hands.old.items }
    ensures setup { state.new.setup ≡ state.old.setup }
    ensures refused { state.new.refused ≡ state.old.refused }
    ensures count { length state.new.events ≡ length state.old.events + result }
    ensures goes_on { GoesOn state.old.events state.new.events }
    ensures legal { IsLegal state.new.setup state.new.events }
    ensures over { (i : ℕ) → i < state.new.setup.ports → IsOver state.new.setup i state.new.events }
{
    let events = finish(hands, state);
    state.legal();
    events
}

fn finish(hands: &mut [Hand], state: &mut BoardState) -> u64
    requires { AreHandsOf hands.old state.old }
    ensures hands { AreHandsOf hands.new state.new }
    ensures plans { plans_of hands.new ≡ plans_of hands.old }
    ensures setup { state.new.setup ≡ state.old.setup }
    ensures refused { state.new.refused ≡ state.old.refused }
    ensures count { length state.new.events ≡ length state.old.events + result }
    ensures goes_on { GoesOn state.old.events state.new.events }
    ensures over { (i : ℕ) → i < state.new.setup.ports → IsOver state.new.setup i state.new.events }
{
    let before = state.events();
    while turns_and_decision(hands, state) {}
    state.events() - before
}

// Each card's turn, and the decision of the slot where it may come. Whether an event came.
fn turns_and_decision(hands: &mut [Hand], state: &mut BoardState) -> bool
    requires { AreHandsOf hands.old state.old }
    ensures hands { AreHandsOf hands.new state.new }
    ensures plans { plans_of hands.new ≡ plans_of hands.old }
    ensures setup { state.new.setup ≡ state.old.setup }
    ensures refused { state.new.refused ≡ state.old.refused }
    ensures grows { length state.old.events ≤ length state.new.events }
    ensures goes_on { GoesOn state.old.events state.new.events }
    ensures more { result ≡ true → length state.old.events < length state.new.events }
    ensures most { length state.new.events ≤ (2 * state.new.setup.ports + 1) * state.new.setup.max_slots }
    ensures over { result ≡ false → (i : ℕ) → i < state.new.setup.ports → IsOver state.new.setup i state.new.events }
{
    let acts = turns(hands, state);
    let decided = decide(state);
    state.legal();
    acts > 0 || decided
}

// The turns of all cards.
fn turns(hands: &mut [Hand], state: &mut BoardState) -> u64
    requires { AreHandsOf hands.old state.old }
    ensures plans { plans_of hands.new ≡ plans_of hands.old }
    ensures turns { AfterTurns hands.new state.old state.new (length hands.new) result }
{
    state.legal();
    let mut acts: u64 = 0;
    let mut card: u32 = 0;
    for hand in hands.iter_mut() {
        if act(hand, card, state) {
            acts += 1;
        }
        card += 1;
    }
    acts
}

// The decision of the next slot, where it may come.
fn decide(state: &mut BoardState) -> bool
    ensures hands { (hands : List Hand) → AreHandsOf hands state.old → AreHandsOf hands state.new }
    ensures setup { state.new.setup ≡ state.old.setup }
    ensures refused { state.new.refused ≡ state.old.refused }
    ensures grows { length state.old.events ≤ length state.new.events }
    ensures goes_on { GoesOn state.old.events state.new.events }
    ensures more { result ≡ true → length state.old.events < length state.new.events }
    ensures none { result ≡ false → (state.new ≡ state.old) × (MayDecide state.old.setup state.old.events → ⊥) }
{
    if !state.may_settle() {
        return false;
    }
    state.settle();
    true
}

// A card's post or take, where one may come.
fn act(hand: &mut Hand, card: u32, state: &mut BoardState) -> bool
    requires hand { IsHandOf hand.old state.old.setup card state.old.events }
    requires card { card < state.old.setup.ports }
    ensures hand { IsHandOf hand.new state.new.setup card state.new.events }
    ensures plan { hand.new.card.sends.plan ≡ hand.old.card.sends.plan }
    ensures act { AfterAct card state.old state.new result }
{
    state.legal();
    let book = state.book(card);
    if book.posted {
        if !state.may_draw(card) {
            return false;
        }
        take_alone(hand, card, state);
        true
    } else if book.done || book.slot >= state.max_slots() {
        false
    } else {
        post_alone(hand, card, state);
        true
    }
}

fn post_alone(hand: &mut Hand, card: u32, state: &mut BoardState)
    requires hand { IsHandOf hand.old state.old.setup card state.old.events }
    requires card { card < state.old.setup.ports }
    requires free { takes_of card state.old.events < length (posts_of card state.old.events) → ⊥ }
    requires going { is_done_before state.old.setup.ports (posted state.old.events) (takes_of card state.old.events) ≡ false }
    requires room { takes_of card state.old.events < state.old.setup.max_slots }
    ensures hand { IsHandOf hand.new state.new.setup card state.new.events }
    ensures plan { hand.new.card.sends.plan ≡ hand.old.card.sends.plan }
    ensures act { AfterAct card state.old state.new true }
{
    state.legal();
    let post = next_post(hand);
    forget(&mut hand.kept);
    state.put(card, &post);
}

fn take_alone(hand: &mut Hand, card: u32, state: &mut BoardState)
    requires hand { IsHandOf hand.old state.old.setup card state.old.events }
    requires may { MayTake state.old.setup state.old.events card }
    ensures hand { IsHandOf hand.new state.new.setup card state.new.events }
    ensures plan { hand.new.card.sends.plan ≡ hand.old.card.sends.plan }
    ensures act { AfterAct card state.old state.new true }
{
    state.legal();
    let taken = state.draw(card);
    state.legal();
    give(&mut hand.card, &taken);
}
