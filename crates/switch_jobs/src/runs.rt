ghost use Rattle.std.specs.Prelude.{IfOk, length};
ghost use Rattle.switch_plan.specs.GoodPlans.{switch_plan_of, IsGood, IsBurst};
ghost use Rattle.run_laws.specs.Promises.{CompletesMulticast, ServesWaiting, WaitsAreShort};
ghost use Rattle.run_laws.specs.Outcomes.{IsOutcome};
ghost use Rattle.switch_jobs.specs.OneJournal.{IsOneJournal, WasTried};

use crate::ending::{end_run, finish_cards, run_is_made};
use crate::groups::{for_processors, share};
use crate::jobs;
use crate::ready::{Ready, Rooms};
use crate::summaries::summarize;
use crate::workers::drive_groups;
use card_worker::Gate;
use rotating_pick::OutOfMemory;
use run_laws::Outcome;
use std::alloc::Global;
use std::thread::Threads;
use switch_plan::Plan;

// How often a card is refused before it gives up.
const PATIENCE: u32 = 64;

/// Runs the plan: takes all memory that this needs, and then makes all slots with a patience of 64. The only
/// error is out of memory.
///
/// While nothing of a better level is posted, a unicast queue that is posted is served within so many slots as
/// `longest_service_at_line_rate()` of `service_bound` tells, if no multicast of its level is posted either; and a
/// multicast head that is posted completes within twice as many slots as there are ports.
pub fn run_job<R: Threads + Sync, G: Gate + Sync>(
    rt: &R,
    alloc: Global,
    plan: Plan,
    gate: &G,
) -> Result<Outcome, OutOfMemory>
    requires good { IsGood (switch_plan_of plan) }
    requires burst { IsBurst (switch_plan_of plan) }
    ensures run { IfOk result (λ outcome. IsOutcome (switch_plan_of plan) outcome) }
    ensures tried { IfOk result (λ outcome. WasTried 64 outcome.journal) }
    ensures journal { IfOk result (λ outcome. IsOneJournal 64 outcome.journal) }
    ensures serves { IfOk result (λ outcome. ServesWaiting (switch_plan_of plan) (length outcome.journal.slots)) }
    ensures waits { IfOk result (λ outcome. WaitsAreShort (switch_plan_of plan) (length outcome.journal.slots)) }
    ensures completes { IfOk result (λ outcome. CompletesMulticast (switch_plan_of plan) (length outcome.journal.slots)) }
{
    let ready = jobs::ready(alloc, plan)?;
    Ok(run_ready(rt, ready, gate))
}

/// Makes all slots of the run with a patience of 64. It takes no memory. Queues are served, and multicast heads
/// complete, as soon as [`run_job`] says.
pub fn run_ready<R: Threads + Sync, G: Gate + Sync>(rt: &R, ready: Ready, gate: &G) -> Outcome
    ensures run { IsOutcome ready result }
    ensures tried { WasTried 64 result.journal }
    ensures journal { IsOneJournal 64 result.journal }
    ensures serves { ServesWaiting ready (length result.journal.slots) }
    ensures waits { WaitsAreShort ready (length result.journal.slots) }
    ensures completes { CompletesMulticast ready (length result.journal.slots) }
{
    run_ready_with(rt, ready, gate, PATIENCE)
}

/// Makes all slots of the run: workers drive their cards, each on a thread of its own, until each card is done or was
/// refused `patience` times, in all and not in a row; then the board is closed, and what is left is made on this
/// thread. How many slots that is depends on how the threads meet. There are no more workers than processors, but two
/// where two are asked for. The gate is called before each try of a worker. It takes no memory.
///
/// Queues are served, and multicast heads complete, as soon as [`run_job`] says.
pub fn run_ready_with<R: Threads + Sync, G: Gate + Sync>(
    rt: &R,
    ready: Ready,
    gate: &G,
    patience: u32,
) -> Outcome
    ensures run { IsOutcome ready result }
    ensures tried { WasTried patience result.journal }
    ensures journal { IsOneJournal patience result.journal }
    ensures serves { ServesWaiting ready (length result.journal.slots) }
    ensures waits { WaitsAreShort ready (length result.journal.slots) }
    ensures completes { CompletesMulticast ready (length result.journal.slots) }
{
    let Ready {
        terms,
        board,
        members,
        rooms,
    } = ready;
    let Rooms {
        groups,
        seats,
        hands,
        outputs,
        meter,
    } = rooms;
    let mut groups = share(&board, members, for_processors(rt, groups));
    drive_groups(rt, &board, &mut groups, gate, patience);
    let (state, hands) = end_run(board, groups, seats, hands);
    run_is_made(&state, &hands);
    let outputs = finish_cards(hands, outputs);
    let journal = state.journal();
    let summary = summarize(&terms, &journal, &outputs, meter);
    Outcome {
        outputs,
        journal,
        summary,
    }
}
