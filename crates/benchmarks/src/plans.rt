//! The plan of a table and captures.
ghost use Rattle.std.specs.Prelude.{IfSome, IfOk};
ghost use Rattle.switch_words.specs.Limits.{IsUpTo};
ghost use Rattle.switch_plan.specs.GoodPlans.{switch_plan_of, IsGood, IsBurst};

use rotating_pick::{MAX_FILE_BYTES, MAX_PORTS};
use std::alloc::Global;
use std::thread::Threads;
use switch_plan::{Plan, PlanFault, jobs};
use switch_words::{MAX_WORKERS, Settings, Speed};

/// Rounds of a slot.
const ROUNDS: u32 = 4;

/// The most cells of a queue.
const DEPTH: u32 = 131_072;

/// The plan of a table and captures at line pace, or None where these are too many or too large.
pub(crate) fn planned<R: Threads + Sync>(
    rt: &R,
    alloc: Global,
    workers: u32,
    table: Vec<u8>,
    captures: Vec<Vec<u8>>,
) -> Option<Result<Plan, PlanFault>>
    requires { IsUpTo MAX_WORKERS workers }
    ensures good { IfSome result (λ answer. IfOk answer (λ plan. IsGood (switch_plan_of plan))) }
    ensures burst { IfSome result (λ answer. IfOk answer (λ plan. IsBurst (switch_plan_of plan))) }
{
    let few = !captures.is_empty() && captures.len() <= MAX_PORTS as usize;
    if !few || table.len() > MAX_FILE_BYTES {
        return None;
    }
    if !captures.iter().all(|file| file.len() < 1 << 32) {
        return None;
    }
    let settings = Settings {
        rounds: ROUNDS,
        depth: DEPTH,
        workers,
        speed: Speed::Untimed,
        long: false,
    };
    Some(jobs::plan(rt, alloc, &settings, table, captures))
}
