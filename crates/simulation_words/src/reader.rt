ghost use Rattle.std.specs.Prelude.{◌≡◌, ◌<◌, ◌≤◌, Err, Some, None, IfOk, IfSome, map, option_map, string_bytes, codes};
ghost use Rattle.command_words.specs.Parts.{text_of};
ghost use Rattle.made_traffic.specs.Patterns.{weight_of};
ghost use Rattle.simulated_slots.specs.Jobs.{AreSettings};
ghost use Rattle.simulation_words.specs.Reading.{discipline_given, discipline_named, number_or, option_names, pattern_in};
ghost use Rattle.simulation_words.specs.Reading.{settings_in, simulation_in, simulation_of, traffic_in, weight_given};

use crate::defaults::{
    DEFAULT_BATCHES, DEFAULT_BURST, DEFAULT_DEPTH, DEFAULT_LOAD, DEFAULT_ROUNDS,
};
use command_words::{OptionNames, Parts, WordsFault, number_within, parts_of};
use made_traffic::{MAX_BURST, MILLION, Pattern, Traffic};
use rotating_pick::{MAX_PORTS, MAX_ROUNDS};
use scheduler_names::SchedulerName;
use simulated_slots::{Discipline, Job, MAX_BATCHES, MAX_DEPTH, MAX_SEED, MAX_SLOTS, Settings};
use std::alloc::Global;

/// What the words of a simulation ask for.
#[derive(Clone, Copy, Debug, PartialEq, Eq)]
pub struct SimulationWords {
    /// What is simulated.
    pub job: Job,
    /// Whether how often each delay came is to be told.
    pub histogram: bool,
}

/// Reads the words of a simulation, those behind the command.
///
/// The names are a seed, a number of slots and a number of ports. Each option is given at most once, in any order. A
/// number is 1 to 10 decimal digits. That the cells of all queues fit is not tested here.
///
/// `Usage` comes exactly where the words mean no simulation, unless memory runs out. `OutOfMemory` may come in place of any
/// answer.
pub fn read_words(alloc: Global, words: &[String]) -> Result<SimulationWords, WordsFault>
    ensures simulation { IfOk result (λ s. simulation_of (map string_bytes words.now) ≡ Some s) }
    ensures usage { result ≡ Err WordsFault.Usage → simulation_of (map string_bytes words.now) ≡ None }
{
    let parts = parts_of(alloc, &option_names(), words)?;
    simulation(&parts).ok_or(WordsFault::Usage)
}

// The options of a simulation.
fn option_names() -> OptionNames<'static>
    ensures { result ≡ option_names }
{
    OptionNames::new(
        &[
            "scheduler",
            "rounds",
            "load-ppm",
            "burst",
            "pattern",
            "weight-ppm",
            "depth",
            "warm-up",
            "batches",
        ],
        &["histogram"],
    )
}

// The simulation of these names and options.
#[tactic(auto, unfolding(crate::specs::Reading::simulation_in))]
fn simulation(parts: &Parts<'_>) -> Option<SimulationWords>
    ensures { result ≡ simulation_in parts.now }
{
    let [seed, slots, ports] = parts.names() else {
        return None;
    };
    let seed = number_within(0, MAX_SEED, seed)?;
    let slots = number_within(1, MAX_SLOTS, slots)?;
    let ports = number_within(1, MAX_PORTS, ports)?;
    let traffic = traffic(parts, ports)?;
    let settings = settings(parts, slots)?;
    Some(SimulationWords {
        job: Job::new(traffic, seed, slots, settings)?,
        histogram: parts.has_flag("histogram"),
    })
}

// The traffic of a switch of so many ports.
#[tactic(auto, unfolding(crate::specs::Reading::traffic_in))]
fn traffic(parts: &Parts<'_>, ports: u32) -> Option<Traffic>
    requires some { 0 < ports }
    requires size { ports ≤ MAX_PORTS }
    ensures { result ≡ traffic_in parts.now ports }
{
    let pattern = pattern(parts)?;
    let load = number_or(DEFAULT_LOAD, 0, MILLION, parts.text("load-ppm"))?;
    let burst = number_or(DEFAULT_BURST, 1, MAX_BURST, parts.text("burst"))?;
    Traffic::new(ports, pattern, load, burst)
}

// The pattern, with a weight exactly where it has one.
fn pattern(parts: &Parts<'_>) -> Option<Pattern>
    ensures pattern { result ≡ pattern_in parts.now }
    ensures weight { IfSome result (λ pattern. weight_of pattern ≤ MILLION) }
{
    let weight = weight(parts.text("weight-ppm"))?;
    Pattern::named(parts.text("pattern").unwrap_or("uniform"), weight)
}

// The weight of this text, if there is one.
fn weight(text: Option<&str>) -> Option<Option<u32>>
    ensures weight { result ≡ weight_given (option_map (λ t. t.now) text.entry) }
    ensures size { IfSome result (λ weight. IfSome weight (λ w. w ≤ MILLION)) }
{
    match text {
        None => Some(None),
        Some(text) => Some(Some(number_within(0, MILLION, text)?)),
    }
}

// The settings of a job of so many slots.
#[tactic(auto, unfolding(crate::specs::Reading::settings_in))]
fn settings(parts: &Parts<'_>, slots: u32) -> Option<Settings>
    requires { 0 < slots }
    ensures settings { result ≡ settings_in parts.now slots }
    ensures in_range { IfSome result (AreSettings slots) }
{
    Some(Settings {
        discipline: discipline(parts.text("scheduler"))?,
        rounds: number_or(DEFAULT_ROUNDS, 1, MAX_ROUNDS, parts.text("rounds"))?,
        depth: number_or(DEFAULT_DEPTH, 1, MAX_DEPTH, parts.text("depth"))?,
        warm_up: number_or(slots / 10, 0, slots - 1, parts.text("warm-up"))?,
        batches: number_or(DEFAULT_BATCHES, 1, MAX_BATCHES, parts.text("batches"))?,
    })
}

// The discipline of this name, if there is one, else that of iSLIP.
fn discipline(name: Option<&str>) -> Option<Discipline>
    ensures { result ≡ discipline_given (option_map (λ n. n.now) name.entry) }
{
    match name {
        None => Some(Discipline::Scheduled(SchedulerName::Islip)),
        Some(name) => discipline_named(name),
    }
}

// The discipline of this name.
fn discipline_named(name: &str) -> Option<Discipline>
    ensures { result ≡ discipline_named name.now }
{
    match name {
        "pim" => Some(Discipline::Pim),
        "fifo" => Some(Discipline::Fifo),
        "ideal" => Some(Discipline::Ideal),
        _ => Some(Discipline::Scheduled(SchedulerName::named(name)?)),
    }
}

// The number from `low` to `high` that this text writes, if there is one, else `default`.
fn number_or(default: u32, low: u32, high: u32, text: Option<&str>) -> Option<u32>
    requires some { low ≤ default }
    requires few { default ≤ high }
    ensures number { result ≡ number_or default low high (option_map (λ t. t.now) text.entry) }
    ensures bounds { IfSome result (λ n. (low ≤ n) × (n ≤ high)) }
{
    match text {
        None => Some(default),
        Some(text) => number_within(low, high, text),
    }
}
