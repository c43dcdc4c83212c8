//! Boards on which the cards of a plan act, as the contracts of functions that do nothing.

ghost use Rattle.std.specs.Prelude.{◌≡◌, ℕ, ◌<◌, List};
ghost use Rattle.crossbar.specs.declared.cards.Taken.{Taken};
ghost use Rattle.slot_histories.specs.declared.events.Event.{Event};
ghost use Rattle.slot_histories.specs.Events.{takes_of, decides};
ghost use Rattle.slot_histories.specs.Legal.{IsLegal};
ghost use Rattle.slot_histories.specs.Answers.{takings_of, journal_of};
ghost use Rattle.slot_histories.specs.Columns.{column_of};
ghost use Rattle.card_worker.specs.Agreeing.{AreGiven, IsDriven};
ghost use Rattle.card_worker.specs.Alone.{IsOver};
ghost use Rattle.switch_plan.specs.GoodPlans.{SwitchPlan, IsGood};
ghost use Rattle.run_laws.specs.Runs.{ports_of, setup_for, card_at, run_journal, run_takings};
ghost use Rattle.run_laws.specs.Ends.{IsLength};

/// In whatever order the cards act at a board: where each posts what its plan gives for what it was served, the
/// board's journal is that of the run, and each card takes what the run has for its port.
pub fn driven_boards_make_the_run()
    ensures journal { (plan : SwitchPlan) (events : List Event) → IsGood plan → IsLegal (setup_for plan) events
        → ((i : ℕ) → i < ports_of plan → IsDriven (card_at plan i) (column_of (setup_for plan) i events))
        → journal_of (setup_for plan) events ≡ run_journal plan (decides events) }
    ensures takings { (plan : SwitchPlan) (events : List Event) → IsGood plan → IsLegal (setup_for plan) events
        → ((i : ℕ) → i < ports_of plan → IsDriven (card_at plan i) (column_of (setup_for plan) i events))
        → (i : ℕ) → i < ports_of plan → takings_of (setup_for plan) i events ≡ run_takings plan i (takes_of i events) }
{}

/// Where no card can act any more, the board has decided the slots of the run, and each card has taken them all.
pub fn finished_boards_end_the_run()
    ensures length { (plan : SwitchPlan) (events : List Event) → IsGood plan → IsLegal (setup_for plan) events
        → ((i : ℕ) → i < ports_of plan → IsDriven (card_at plan i) (column_of (setup_for plan) i events))
        → ((i : ℕ) → i < ports_of plan → IsOver (setup_for plan) i events) → IsLength plan (decides events) }
    ensures taken { (plan : SwitchPlan) (events : List Event) → IsGood plan → IsLegal (setup_for plan) events
        → ((i : ℕ) → i < ports_of plan → IsDriven (card_at plan i) (column_of (setup_for plan) i events))
        → ((i : ℕ) → i < ports_of plan → IsOver (setup_for plan) i events)
        → (i : ℕ) → i < ports_of plan → takes_of i events ≡ decides events }
{}

/// A card is given all that it takes in a run: no cell is left out.
pub fn all_takings_are_given()
    ensures { (plan : SwitchPlan) (j slots : ℕ) (given : List Taken) → IsGood plan → j < ports_of plan
        → AreGiven (card_at plan j) (run_takings plan j slots) given → given ≡ run_takings plan j slots }
{}
