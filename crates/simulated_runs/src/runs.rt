ghost use Rattle.std.specs.Prelude.{◌≡◌, ◌≤◌, IfErr, IfOk, OnOk};
ghost use Rattle.arrival_queues.specs.declared.limits.TheConstants.{MAX_CELLS};
ghost use Rattle.simulated_slots.specs.Jobs.{places_of};
ghost use Rattle.simulated_runs.specs.Faults.{IsFaultOf};
ghost use Rattle.simulated_runs.specs.Numbers.{numbers_of};

use crate::fault::SimulationFault;
use crate::numbers::Numbers;
use crate::simulation::Simulation;
use arrival_queues::MAX_CELLS;
use simulated_slots::Job;
use std::alloc::Global;

/// Makes all slots of the job, and tells its numbers. All memory that the slots need is taken before the first one.
/// `TooManyCells` exactly where its queues would have places for more than 67,108,864 cells.
pub fn simulate(alloc: Global, job: &Job) -> Result<Numbers, SimulationFault>
    ensures numbers { IfOk result (λ numbers. numbers ≡ numbers_of job.now) }
    ensures fits { OnOk result (places_of job.now ≤ MAX_CELLS) }
    ensures fault { IfErr result (IsFaultOf job.now) }
{
    let cells = job.places();
    if cells > u64::from(MAX_CELLS) {
        return Err(SimulationFault::TooManyCells { cells });
    }
    let mut simulation = Simulation::make(alloc, job)?;
    for _ in 0..job.slots() {
        simulation.step();
    }
    Ok(simulation.numbers(alloc)?)
}
