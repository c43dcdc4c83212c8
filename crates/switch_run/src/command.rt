ghost use Rattle.std.specs.Prelude.{◌≡◌, ◌≤◌, ◌+◌, ℕ, Bool, Option, None, Some, length, map, string_bytes, IfOk};
ghost use Rattle.outside.specs.Contents.{Contents, NoneRead, StayAlike, held};
ghost use Rattle.outside.specs.Faults.{NeverFall, NoneRose, OnlyRose, Place};
ghost use Rattle.job_files.specs.Statuses.{RefusedCallsEnd, refused_by, status_of};
ghost use Rattle.switch_words.specs.Limits.{IsWithinLimits};
ghost use Rattle.switch_words.specs.Options.{command_in};
ghost use Rattle.switch_words.specs.Reading.{JobWords, job_words, reading_of};
ghost use Rattle.switch_run.specs.Causes.{SwitchTheorem};
ghost use Rattle.switch_run.specs.Endings.{Means, command_of, is_own};
ghost use Rattle.switch_run.specs.MakingSteps.{IsEndOf, Makes};
ghost use Rattle.job_files.specs.declared.ending.Ending.{Ending};
ghost use Rattle.job_files.specs.declared.ending.Ending.TheVariants.{Usage};

use crate::job_texts::{end_of_check, texts_of_firm, texts_of_gen, texts_of_run};
use crate::packets::PacketPieces;
use card_worker::Gate;
use departure_bounds::laws as bounds;
use job_files::{Ending, JobTexts, print_line, print_memory, print_usage, put_texts};
use named_schedulers::laws as schedulers;
use outside::Files;
use packet_times::laws as packets;
use queue_measures::{laws as measures, sizes};
use reference_run::laws as references;
use rotating_pick::MAX_PORTS;
use run_journals::laws as journals;
use run_laws::{deliveries, departures, ends, numbers, waits};
use scheduler_runs::laws as named_runs;
use std::alloc::Global;
use std::thread::Threads;
use switch_words::{Job, WordsFault, read_words};

// Writes the texts of a job, where they were made: how the job ends.
fn end_of_writing<F: Files>(made: Result<JobTexts<PacketPieces>, Ending>, files: &mut F) -> Ending
    requires { IfOk made (λ texts. length texts.files.items ≤ MAX_PORTS + 3) }
    ensures meaning { (c : Contents) (job : JobWords) (old : Option Contents) (was : Place → ℕ)
        → Makes job old was (F.faults files.old) (F.seen c files.old) made
        → IsEndOf job old was (F.faults files.new) (F.seen c files.new) result }
    ensures own { NoneRead F.seen files.old files.new }
    ensures no_fault { (c : Contents) (job : JobWords) (old : Option Contents) (was : Place → ℕ)
        → Makes job old was (F.faults files.old) (F.seen c files.old) made
        → status_of result ≡ 0 → NoneRose was (F.faults files.new) }
    ensures refused { (c : Contents) (job : JobWords) (old : Option Contents) (was : Place → ℕ)
        → Makes job old was (F.faults files.old) (F.seen c files.old) made
        → OnlyRose (refused_by result) was (F.faults files.new) }
    ensures never_fall { NeverFall (F.faults files.old) (F.faults files.new) }
{
    match made {
        Ok(mut texts) => match put_texts(files, &mut texts) {
            Ok(()) => Ending::Done,
            Err(written) => Ending::WriteFault(written),
        },
        Err(ending) => ending,
    }
}

// Reads what the job names, runs or checks it, and writes its texts, up to the first call that is refused.
fn attempt<R: Threads + Sync, F: Files, G: Gate + Sync>(
    rt: &R,
    alloc: Global,
    job: &Job,
    files: &mut F,
    gate: &G,
) -> Ending
    requires { IsWithinLimits job.now }
    ensures meaning { (c : Contents) → IsEndOf (job_words job.now) (held (F.seen c files.old) (F.seen c files.new)) (F.faults files.old)
        (F.faults files.new) (F.seen c files.new) result }
    ensures own { StayAlike (is_own (Some (job_words job.now))) F.seen files.old files.new }
    ensures no_fault { status_of result ≡ 0 → NoneRose (F.faults files.old) (F.faults files.new) }
    ensures refused { OnlyRose (refused_by result) (F.faults files.old) (F.faults files.new) }
    ensures never_fall { NeverFall (F.faults files.old) (F.faults files.new) }
{
    match job {
        Job::Run(job) => end_of_writing(texts_of_run(rt, alloc, job, files, gate), files),
        Job::Gen(job) => end_of_writing(texts_of_gen(rt, alloc, job, gate), files),
        Job::Check(job) => end_of_check(alloc, job, files),
        Job::Firm(job) => end_of_writing(texts_of_firm(rt, alloc, job, files, gate), files),
    }
}

// Runs the job, and prints the line of its ending.
fn run<R: Threads + Sync, F: Files, G: Gate + Sync>(
    rt: &R,
    alloc: Global,
    job: &Job,
    files: &mut F,
    gate: &G,
) -> Ending
    requires { IsWithinLimits job.now }
    ensures meaning { (c : Contents) (named : Bool) → Means (record {
      named = named;
      job = Some (job_words job.now);
      old = held (F.seen c files.old) (F.seen c files.new);
      new = F.seen c files.new;
      was = F.faults files.old;
      now = F.faults files.new;
    }) result }
    ensures own { StayAlike (is_own (Some (job_words job.now))) F.seen files.old files.new }
    ensures no_fault { status_of result ≡ 0 → NoneRose (F.faults files.old) (F.faults files.new) }
    ensures refused { RefusedCallsEnd (F.faults files.old) (F.faults files.new) (status_of result) }
    ensures never_fall { NeverFall (F.faults files.old) (F.faults files.new) }
{
    let ending = attempt(rt, alloc, job, files, gate);
    print_line(files, job, ending);
    ending
}

// How the command of these words ends.
fn end_of<R: Threads + Sync, F: Files, G: Gate + Sync>(
    rt: &R,
    alloc: Global,
    words: &[String],
    files: &mut F,
    gate: &G,
) -> Ending
    ensures meaning { (c : Contents) → Means (command_of (map string_bytes words.now) (held (F.seen c files.old) (F.seen c files.new)) (F.seen c files.new)
        (F.faults files.old) (F.faults files.new)) result }
    ensures own { StayAlike (is_own (reading_of (map string_bytes words.now))) F.seen files.old files.new }
    ensures unnamed { command_in (map string_bytes words.now) ≡ None → result ≡ Usage }
    ensures no_fault { status_of result ≡ 0 → NoneRose (F.faults files.old) (F.faults files.new) }
    ensures refused { RefusedCallsEnd (F.faults files.old) (F.faults files.new) (status_of result) }
    ensures never_fall { NeverFall (F.faults files.old) (F.faults files.new) }
{
    match read_words(alloc, words) {
        Ok(job) => run(rt, alloc, &job, files, gate),
        Err(WordsFault::Usage) => {
            print_usage(files);
            Ending::Usage
        }
        Err(WordsFault::OutOfMemory) => {
            print_memory(files);
            Ending::OutOfMemory
        }
    }
}

/// Runs the command that the words give over the files, and answers its exit status. The line cards are shared
/// among threads of `rt`; before each try of a post or a take the gate is called.
///
/// The words are those of a `run`, a `gen`, a `check` or a `firm` job, as [`switch_words`] says. A `run` and a `firm`
/// job read their table and then each capture whole. Of these, or of the input that a `gen` job makes, the switch is
/// planned and run to its end: for `firm` under FIRM, for `run` and `gen` under the one that
/// `--scheduler` names, `islip`, `firm` or `rrm`, `islip` where it names none. The run under `islip` is made at the
/// board, by the line cards; with `--alone` or `--long`, and under the other schedulers, it is made on one thread. What
/// is written is the same either way. A job with `--long` has the limits of long jobs, `long_limits` of `switch_plan`,
/// and makes of what both can run what it makes without. A `run` job then writes the capture of output `j` to `PREFIX.j.pcap`, for each `j` in order,
/// the report to `PREFIX.report` and, each where it is wanted, the journal to `PREFIX.journal` and after it the packets
/// file to `PREFIX.packets.csv`. Last, the summary is given to standard output. A `check` job reads a journal file and
/// tells whether it is lawful: whether its matches are those of the scheduler that `--scheduler` names, `islip` where
/// it names none.
///
/// - 0: all is written, and nothing else changed; or the journal file is lawful. No count of refused calls rose.
/// - 2: the words are not those of a job. Where there are none, or the first names no command, it comes even where
///   memory has run out.
/// - 3: a read of the table, of a capture or of the journal file was refused.
/// - 4: the table or a capture has more than 16,777,216 bytes, or a capture of a long job more than 4,294,967,295, or
///   what they hold is refused; or a journal that is to be written or checked has more than 134,217,728 bytes, or a
///   packets file that is to be written has, but in a long job; or what is to be checked is no journal file.
/// - 5: memory ran out. No file was begun, and nothing was given to standard output.
/// - 6: a call on a file that is written or on standard output was refused. What was to be written before is whole,
///   and what was to be written after is as before.
/// - 7: the journal file is not lawful.
///
/// At 0 all that is written is that of the run which the words and the bytes that were read have, slot by slot, in
/// whatever order the threads made it. Of that run: at each output each flow has just its admitted packets, in order of
/// arrival, and the messages of its capture are in the order of the slots in which their last cells crossed; every
/// packet arrives before the run's end and is counted once; a unicast queue that is posted is served, where nothing
/// better is posted and no multicast of its level, within `longest_service_at_line_rate()` slots of `service_bound`
/// under `islip` and within `n * n` slots of `n` ports under `firm`, while none is promised for `rrm`; a multicast head
/// completes within twice as many slots as there are ports, where nothing better is posted; each of these also holds of a
/// run that ends before, in which what waits is served by its end, and for a queue only its own output counts (then
/// within `longest_service()` slots under `islip`); it has no more slots than
/// the greatest number of arrival slots, the cells of the admitted packets counted for each output, and one; and an
/// ideal switch whose queues stand at the outputs is never behind it, serves as many cells in all, and ends no later. A
/// journal that was written is one that a `check` job of the same scheduler finds lawful, and of which it tells the
/// slots and the longest waits that the summary tells. The numbers of an input's queues add up to those of its packets.
/// Where the run drops no packet, it is the same with queues of each depth from the cells of its deepest queue on, and
/// with each smaller depth a packet is dropped. Each admitted packet has one departure at each of its outputs, no two
/// have the same at one output, those of a flow are in the order of arrival, the messages of each output's capture are
/// in the order of departures, and there are as many as the summary has copies. The rows of the packets file tell as
/// many packets of each state as the summary, and those of forwarded packets are as many as it has copies. Where each
/// packet goes to one output and a slot has as many rounds as ports, or more, what arrives bounds how long cells wait and
/// packets take, how many cells inputs hold and wait for outputs, the depth with which nothing is dropped, and when the run
/// ends.
///
/// Where a count of refused reads rose the status is 3, and where one of what is written or of standard output did it is 6.
/// At 2 to 5 and at 7 every file is as before. Each status but 0 gives one line to standard error; where a call
/// of that is refused, the rest of the line is left out, and the status stays.
///
/// What files hold stands for any contents that agree with what reads gave; so this speaks of a disk too.
/// No file is read but those that the job names.
pub fn switch_main<R: Threads + Sync, F: Files, G: Gate + Sync>(
    rt: &R,
    alloc: Global,
    words: &[String],
    files: &mut F,
    gate: &G,
) -> u8
    ensures theorem { (c : Contents) → SwitchTheorem (command_of (map string_bytes words.now) (held (F.seen c files.old) (F.seen c files.new))
        (F.seen c files.new) (F.faults files.old) (F.faults files.new)) result }
    ensures own { StayAlike (is_own (reading_of (map string_bytes words.now))) F.seen files.old files.new }
{
    deliveries::admitted_packets_are_delivered();
    waits::waiting_queues_are_served();
    waits::waiting_queues_are_served_in_time();
    waits::best_level_waits_are_short();
    named_runs::multicast_completes_under_each();
    named_runs::multicast_completes_in_time_under_each();
    schedulers::each_is_a_scheduler();
    ends::runs_end();
    ends::busy_slots_match();
    ends::arrivals_come_first();
    numbers::packets_are_counted_once();
    numbers::flows_are_interleaved();
    references::reference_is_never_behind();
    references::whole_runs_serve_the_same();
    references::lines_tell_the_delays();
    named_runs::runs_are_as_promised();
    journals::journals_of_runs_are_lawful();
    measures::lines_add_up();
    sizes::runs_are_sized();
    departures::runs_have_departures();
    departures::departures_are_counted();
    packets::rows_add_up();
    bounds::arrivals_bound_runs();
    end_of(rt, alloc, words, files, gate).status()
}
