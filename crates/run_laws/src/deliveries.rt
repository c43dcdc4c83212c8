//! What a run delivers under any scheduler, as the contracts of functions that do nothing.

ghost use Rattle.std.specs.Prelude.{ℕ, ◌<◌};
ghost use Rattle.eslip_rounds.specs.Schedulers.{Scheduler, IsScheduler};
ghost use Rattle.slot_histories.specs.Slots.{crossed_under};
ghost use Rattle.card_core.specs.Cards.{Received, HasReceived, MayReceiveAny};
ghost use Rattle.switch_plan.specs.GoodPlans.{SwitchPlan, IsGood};
ghost use Rattle.run_laws.specs.Runs.{ports_of, setup_for, card_at, posts_under};
ghost use Rattle.run_laws.specs.Ends.{IsLengthUnder};
ghost use Rattle.run_laws.specs.Crossings.{cells_under};
ghost use Rattle.run_laws.specs.Promises.{DeliversUnder, DeliversNoOthersUnder};

/// Each cell that crosses to an output is the next of its flow and has room there, with its message where
/// it ends one.
pub fn cells_fit()
    ensures { (scheduler : Scheduler) (plan : SwitchPlan) (j slots : ℕ) (received : Received) → IsScheduler scheduler → IsGood plan → j < ports_of plan
        → HasReceived (card_at plan j) received (cells_under scheduler plan j slots)
        → MayReceiveAny received (crossed_under scheduler (setup_for plan) (posts_under scheduler plan) j slots) }
{}

/// When the run ends, the messages of each flow at an output are those of the admitted packets of that
/// input, level and kind with the output in their fan-out, in order of arrival, and no others.
pub fn admitted_packets_are_delivered()
    ensures flows { (scheduler : Scheduler) (plan : SwitchPlan) (slots : ℕ) → IsScheduler scheduler → IsGood plan → IsLengthUnder scheduler plan slots
        → DeliversUnder scheduler plan slots }
    ensures no_others { (scheduler : Scheduler) (plan : SwitchPlan) (slots : ℕ) → IsScheduler scheduler → IsGood plan
        → DeliversNoOthersUnder scheduler plan slots }
{}
