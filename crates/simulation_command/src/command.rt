ghost use Rattle.std.specs.Prelude.{◌≡◌, Err, Some, None, IfErr, IfOk, OnOk, map, string_bytes};
ghost use Rattle.outside.specs.Contents.{Contents};
ghost use Rattle.outside.specs.Faults.{NeverFall, NoneRose};
ghost use Rattle.simulation_command.specs.Endings.{IsDone, IsText, Stops, command_of, simulation_by};
ghost use Rattle.simulation_command.specs.FaultSteps.{IsRefused};
ghost use Rattle.simulation_command.specs.Simulated.{SimulationTheorem};

use crate::error_lines::print_fault;
use crate::fault::CommandFault;
use command_words::WordsFault;
use outside::{Files, put_out};
use simulated_runs::simulate;
use simulation_text::simulation_text;
use simulation_words::{SimulationWords, read_words};
use std::alloc::Global;

// The simulation that the words mean, of which the first is the command.
fn simulation_by(alloc: Global, words: &[String]) -> Result<SimulationWords, WordsFault>
    ensures simulation { IfOk result (λ s. simulation_by (map string_bytes words.now) ≡ Some s) }
    ensures usage { result ≡ Err WordsFault.Usage → simulation_by (map string_bytes words.now) ≡ None }
{
    let [command, rest @ ..] = words else {
        return Err(WordsFault::Usage);
    };
    if command.as_str() != "simulate" {
        return Err(WordsFault::Usage);
    }
    read_words(alloc, rest)
}

// The text of the simulation that the words mean.
fn text_by(alloc: Global, words: &[String]) -> Result<String, CommandFault>
    ensures text { IfOk result (λ text. IsText (simulation_by (map string_bytes words.now)) (string_bytes text)) }
    ensures refused { IfErr result (IsRefused (simulation_by (map string_bytes words.now))) }
{
    let simulation = simulation_by(alloc, words)?;
    let numbers = simulate(alloc, &simulation.job)?;
    Ok(simulation_text(alloc, &simulation.job, simulation.histogram, &numbers)?)
}

// Gives standard output the text of the simulation that the words mean.
fn tell<F: Files>(alloc: Global, words: &[String], files: &mut F) -> Result<(), CommandFault>
    ensures done { (c : Contents) → OnOk result (IsDone (command_of (map string_bytes words.now) (F.seen c files.old) (F.seen c files.new)
        (F.faults files.old) (F.faults files.new))) }
    ensures stops { (c : Contents) → IfErr result (Stops (command_of (map string_bytes words.now) (F.seen c files.old) (F.seen c files.new)
        (F.faults files.old) (F.faults files.new)) (F.seen c files.new)) }
    ensures no_fault { OnOk result (NoneRose (F.faults files.old) (F.faults files.new)) }
    ensures never_fall { NeverFall (F.faults files.old) (F.faults files.new) }
{
    let text = text_by(alloc, words)?;
    put_out(files, text.as_str().as_bytes())?;
    Ok(())
}

/// Runs the command that the words give, and answers its exit status. The words are `simulate`, options, a seed, a number
/// of slots and a number of ports, as [`simulation_words`] says. The switch of the job is simulated slot by slot under
/// traffic that the seed makes; then standard output is given the text of its numbers, as [`simulation_text`] says.
///
/// - 0: standard output was given the text, which is that of the job's numbers by their definition, and nothing else
///   changed. No count of refused calls rose.
/// - 2: the words mean no simulation.
/// - 4: the queues would have places for more than 67,108,864 cells.
/// - 5: memory ran out.
/// - 6: a call on standard output was refused, which was given a first part of the text.
///
/// No file is read or written, and nothing is given to standard output before the last slot. Each status but 0 gives one
/// line to standard error; where a call of that is refused, the rest of the line is left out, and the status stays.
pub fn simulate_main<F: Files>(alloc: Global, words: &[String], files: &mut F) -> u8
    ensures { (c : Contents) → SimulationTheorem (command_of (map string_bytes words.now) (F.seen c files.old) (F.seen c files.new)
        (F.faults files.old) (F.faults files.new)) result }
{
    match tell(alloc, words, files) {
        Ok(()) => 0,
        Err(fault) => {
            print_fault(files, fault);
            fault.status()
        }
    }
}
