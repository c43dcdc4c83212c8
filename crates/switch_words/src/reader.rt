ghost use Rattle.std.specs.Prelude.{◌≡◌, codes, false, Some, None, Err, drop, map, ok_or, option_map, string_bytes, vec_len, IfOk, IfSome};
ghost use Rattle.switch_words.specs.Options.{command_in};
ghost use Rattle.switch_words.specs.Parts.{no_parts, parts_from};
ghost use Rattle.switch_words.specs.Reading.{number_given, scheduler_given, settings_of, speed_given, inputs_in, run_with, firm_with, check_with, gen_with};
ghost use Rattle.switch_words.specs.Reading.{run_words, check_words, firm_words, job_words, job_with, reading_of};
ghost use Rattle.switch_words.specs.Limits.{AreWithinLimits, IsSpeed, IsUpTo, IsRunWithinLimits, IsGenWithinLimits, IsFirmWithinLimits, IsWithinLimits};
ghost use Rattle.switch_words.specs.LineSteps.{first_text, is_true_text, lookup_of, parts_of};

use crate::fault::WordsFault;
use crate::job::{CheckJob, FirmJob, GenJob, Job, RunJob, Settings, Speed};
use crate::limits::{
    DEFAULT_ROUNDS, DEFAULT_WORKERS, MAX_COUNT, MAX_SEED, MAX_WORKERS, most_depth,
};
use crate::numbers::number_within;
use crate::options::{Command, Flags};
use clap::ArgMatches;
use line_pace::{MAX_LINE_RATE, MAX_SLOT_MICROS};
use rotating_pick::{MAX_PORTS, MAX_ROUNDS};
use scheduler_names::SchedulerName;
use std::alloc::{AllocError, Global};

/// Reads the words of a command line, without the program's name.
///
/// The first word is the command. The others are read from left to right: behind `--` each is a name,
/// and before it what begins with `--` is an option, whose value stands behind its first `=` or is the
/// next word, which may not begin with `-`. Another word that begins with `-` is refused, but `-` alone
/// is a name. A number is 1 to 10 decimal digits.
///
/// `Usage` comes exactly where the words give no job, unless memory runs out: there is no such command,
/// a word is refused, the command lacks an option, an option is repeated, a flag has a value, a value is
/// no number within its limits or no scheduler's name, both `--pace-us` and `--line-rate` are given, `--long`
/// is given with `--slots` or `--journal`, or there are more or fewer names. `OutOfMemory` may come in place of
/// any answer but that there is no such command.
#[tactic(auto, unfolding(crate::specs::Reading::reading_of))]
pub fn read_words(alloc: Global, words: &[String]) -> Result<Job, WordsFault>
    ensures job { IfOk result (λ job. reading_of (map string_bytes words.now) ≡ Some (job_words job)) }
    ensures usage { result ≡ Err WordsFault.Usage → reading_of (map string_bytes words.now) ≡ None }
    ensures no_command { command_in (map string_bytes words.now) ≡ None → result ≡ Err WordsFault.Usage }
    ensures limits { IfOk result IsWithinLimits }
{
    let [first, ..] = words else {
        return Err(WordsFault::Usage);
    };
    let command = Command::named(first.as_str()).ok_or(WordsFault::Usage)?;
    let matches = parsed(alloc, command, words)?;
    job_of(alloc, command, &matches)
}

// The job of the command with these options and names.
#[tactic(auto, unfolding(crate::specs::Reading::job_with))]
fn job_of(alloc: Global, command: Command, matches: &ArgMatches<'_>) -> Result<Job, WordsFault>
    ensures job { IfOk result (λ job. job_with command (parts_of matches.now) ≡ Some (job_words job)) }
    ensures usage { result ≡ Err WordsFault.Usage → job_with command (parts_of matches.now) ≡ None }
    ensures none { job_with command (parts_of matches.now) ≡ None → result ≡ Err WordsFault.Usage }
    ensures limits { IfOk result IsWithinLimits }
{
    let names = names(matches).ok_or(WordsFault::Usage)?;
    match command {
        Command::Run => {
            let flags = flags(matches);
            let settings = settings(matches, flags.long)?;
            let scheduler = scheduler(matches)?;
            Ok(Job::Run(run_job(alloc, settings, scheduler, flags, names)?))
        }
        Command::Gen => Ok(Job::Gen(gen_job(
            settings(matches, false)?,
            scheduler(matches)?,
            names,
        )?)),
        Command::Check => Ok(Job::Check(check_job(alloc, scheduler(matches)?, names)?)),
        Command::Firm => {
            let settings = settings(matches, flags(matches).long)?;
            Ok(Job::Firm(firm_job(alloc, settings, names)?))
        }
    }
}

// The options and the names of the words behind the command, which stands where `clap` has the name of
// the program.
fn parsed<'a>(
    alloc: Global,
    command: Command,
    words: &'a [String],
) -> Result<ArgMatches<'a>, WordsFault>
    ensures parts { IfOk result (λ m. parts_from command None no_parts (drop 1 (map string_bytes words.now)) ≡ Some (parts_of m)) }
    ensures usage { result ≡ Err WordsFault.Usage → parts_from command None no_parts (drop 1 (map string_bytes words.now)) ≡ None }
{
    let line = command.line(alloc)?;
    Ok(line.try_get_matches_from(words)?)
}

// The settings of a run that is long or not. An option that the command lacks has no text.
fn settings(matches: &ArgMatches<'_>, long: bool) -> Result<Settings, WordsFault>
    ensures settings { result ≡ ok_or (settings_of long (parts_of matches.now)) WordsFault.Usage }
    ensures limits { IfOk result AreWithinLimits }
    ensures long { IfOk result (λ settings. settings.long ≡ long) }
{
    given_settings(matches, long).ok_or(WordsFault::Usage)
}

// The settings, where each option's text is a number within its limits.
#[tactic(auto, unfolding(crate::specs::Reading::settings_of))]
fn given_settings(matches: &ArgMatches<'_>, long: bool) -> Option<Settings>
    ensures settings { result ≡ settings_of long (parts_of matches.now) }
    ensures limits { IfSome result AreWithinLimits }
    ensures long { IfSome result (λ settings. settings.long ≡ long) }
{
    let most = most_depth(long);
    Some(Settings {
        rounds: number(matches, "rounds", MAX_ROUNDS)?.unwrap_or(DEFAULT_ROUNDS),
        depth: number(matches, "depth", most)?.unwrap_or(most),
        workers: number(matches, "workers", MAX_WORKERS)?.unwrap_or(DEFAULT_WORKERS),
        speed: speed(matches)?,
        long,
    })
}

// How fast packets come, where at most one of the two options says it.
fn speed(matches: &ArgMatches<'_>) -> Option<Speed>
    ensures speed { result ≡ speed_given (parts_of matches.now).pace_us (parts_of matches.now).line_rate }
    ensures limits { IfSome result IsSpeed }
{
    let micros = number(matches, "pace-us", MAX_SLOT_MICROS)?;
    let mbps = number(matches, "line-rate", MAX_LINE_RATE)?;
    match (micros, mbps) {
        (None, None) => Some(Speed::Untimed),
        (Some(micros), None) => Some(Speed::SlotMicros(micros)),
        (None, Some(mbps)) => Some(Speed::LineRate(mbps)),
        (Some(_), Some(_)) => None,
    }
}

// The number of the option, if it was given; None where it is no number from 1 to `most`.
fn number(matches: &ArgMatches<'_>, id: &str, most: u32) -> Option<Option<u32>>
    ensures number { result ≡ number_given most (first_text (lookup_of matches.now id.now)) }
    ensures limits { IfSome result (λ number. IfSome number (IsUpTo most)) }
{
    match text(matches, id) {
        None => Some(None),
        Some(text) => Some(Some(number_within(1, most, text)?)),
    }
}

// The scheduler that the option names, if it was given, else iSLIP.
fn scheduler(matches: &ArgMatches<'_>) -> Result<SchedulerName, WordsFault>
    ensures { result ≡ ok_or (scheduler_given (parts_of matches.now).scheduler) WordsFault.Usage }
{
    match text(matches, "scheduler") {
        None => Ok(SchedulerName::Islip),
        Some(name) => SchedulerName::named(name).ok_or(WordsFault::Usage),
    }
}

// The flags that were given. One that the command lacks is not.
fn flags(matches: &ArgMatches<'_>) -> Flags
    ensures { result ≡ (parts_of matches.now).flags }
{
    Flags {
        slots: has_flag(matches, "slots"),
        journal: has_flag(matches, "journal"),
        reference: has_flag(matches, "reference"),
        queues: has_flag(matches, "queues"),
        packets: has_flag(matches, "packets"),
        alone: has_flag(matches, "alone"),
        long: has_flag(matches, "long"),
    }
}

// Whether the flag was given: it then has the text `true`.
fn has_flag(matches: &ArgMatches<'_>, id: &str) -> bool
    ensures { result ≡ is_true_text (first_text (lookup_of matches.now id.now)) }
{
    match text(matches, id) {
        Some(text) => text == "true",
        None => false,
    }
}

// The text of the option, if it was given.
fn text<'a>(matches: &ArgMatches<'a>, id: &str) -> Option<&'a str>
    ensures { option_map (λ text. text.now) result ≡ first_text (lookup_of matches.now id.now) }
{
    matches.get_str(id)
}

// The names, if there is one.
fn names<'m, 'a>(matches: &'m ArgMatches<'a>) -> Option<&'m [&'a str]>
    ensures { option_map (λ names. map (λ name. name.now) names.now) result ≡ lookup_of matches.now (codes "names") }
{
    matches.get_strs("names")
}

// The job of `run` with these names: a table, a prefix and the captures. A long run tells of no slot.
fn run_job(
    alloc: Global,
    settings: Settings,
    scheduler: SchedulerName,
    flags: Flags,
    names: &[&str],
) -> Result<RunJob, WordsFault>
    ensures job { IfOk result (λ job. run_with settings scheduler flags (map (λ name. name.now) names.now) ≡ Some (run_words job)) }
    ensures usage { result ≡ Err WordsFault.Usage → run_with settings scheduler flags (map (λ name. name.now) names.now) ≡ None }
    ensures none { run_with settings scheduler flags (map (λ name. name.now) names.now) ≡ None → result ≡ Err WordsFault.Usage }
    ensures limits { AreWithinLimits settings → IfOk result IsRunWithinLimits }
{
    if settings.long && (flags.slots || flags.journal) {
        return Err(WordsFault::Usage);
    }
    let [table, prefix, names @ ..] = names else {
        return Err(WordsFault::Usage);
    };
    Ok(RunJob {
        settings,
        scheduler,
        slots: flags.slots,
        journal: flags.journal,
        reference: flags.reference,
        queues: flags.queues,
        packets: flags.packets,
        alone: flags.alone,
        inputs: inputs(alloc, names)?,
        table: String::from_str(alloc, table)?,
        prefix: String::from_str(alloc, prefix)?,
    })
}

// The job of `firm` with these names: a table and the captures.
fn firm_job(alloc: Global, settings: Settings, names: &[&str]) -> Result<FirmJob, WordsFault>
    ensures job { IfOk result (λ job. firm_with settings (map (λ name. name.now) names.now) ≡ Some (firm_words job)) }
    ensures usage { result ≡ Err WordsFault.Usage → firm_with settings (map (λ name. name.now) names.now) ≡ None }
    ensures none { firm_with settings (map (λ name. name.now) names.now) ≡ None → result ≡ Err WordsFault.Usage }
    ensures limits { AreWithinLimits settings → IfOk result IsFirmWithinLimits }
{
    let [table, names @ ..] = names else {
        return Err(WordsFault::Usage);
    };
    Ok(FirmJob {
        settings,
        inputs: inputs(alloc, names)?,
        table: String::from_str(alloc, table)?,
    })
}

// The job of `check` with these names: one file.
fn check_job(
    alloc: Global,
    scheduler: SchedulerName,
    names: &[&str],
) -> Result<CheckJob, WordsFault>
    ensures job { IfOk result (λ job. check_with scheduler (map (λ name. name.now) names.now) ≡ Some (check_words job)) }
    ensures usage { result ≡ Err WordsFault.Usage → check_with scheduler (map (λ name. name.now) names.now) ≡ None }
    ensures none { check_with scheduler (map (λ name. name.now) names.now) ≡ None → result ≡ Err WordsFault.Usage }
{
    let [file] = names else {
        return Err(WordsFault::Usage);
    };
    Ok(CheckJob {
        scheduler,
        file: String::from_str(alloc, file)?,
    })
}

// The names of captures: 1 to 64.
fn inputs(alloc: Global, names: &[&str]) -> Result<Vec<String>, WordsFault>
    ensures inputs { IfOk result (λ inputs. inputs_in (map (λ name. name.now) names.now) ≡ Some (map string_bytes inputs.items)) }
    ensures usage { result ≡ Err WordsFault.Usage → inputs_in (map (λ name. name.now) names.now) ≡ None }
    ensures none { inputs_in (map (λ name. name.now) names.now) ≡ None → result ≡ Err WordsFault.Usage }
    ensures limits { IfOk result (λ inputs. IsUpTo MAX_PORTS (vec_len inputs)) }
{
    if names.is_empty() || names.len() > MAX_PORTS as usize {
        return Err(WordsFault::Usage);
    }
    Ok(copied(alloc, names)?)
}

fn copied(alloc: Global, names: &[&str]) -> Result<Vec<String>, AllocError>
    ensures { IfOk result (λ texts. map string_bytes texts.items ≡ map (λ name. name.now) names.now) }
{
    let mut texts = Vec::new(alloc);
    for name in names {
        texts.push(String::from_str(alloc, name)?)?;
    }
    Ok(texts)
}

// The job of `gen` with these names: a seed, a count and a number of ports.
fn gen_job(
    settings: Settings,
    scheduler: SchedulerName,
    names: &[&str],
) -> Result<GenJob, WordsFault>
    ensures job { result ≡ ok_or (gen_with settings scheduler (map (λ name. name.now) names.now)) WordsFault.Usage }
    ensures limits { AreWithinLimits settings → settings.long ≡ false → IfOk result IsGenWithinLimits }
{
    made_job(settings, scheduler, names).ok_or(WordsFault::Usage)
}

// A seed, a count and a number of ports, where each name is a number within its limits.
fn made_job(settings: Settings, scheduler: SchedulerName, names: &[&str]) -> Option<GenJob>
    ensures job { result ≡ gen_with settings scheduler (map (λ name. name.now) names.now) }
    ensures limits { AreWithinLimits settings → settings.long ≡ false → IfSome result IsGenWithinLimits }
{
    let [seed, count, ports] = names else {
        return None;
    };
    Some(GenJob {
        settings,
        scheduler,
        seed: number_within(0, MAX_SEED, seed)?,
        count: number_within(0, MAX_COUNT, count)?,
        ports: number_within(1, MAX_PORTS, ports)?,
    })
}
