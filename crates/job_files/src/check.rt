ghost use Rattle.std.specs.Prelude.{◌≡◌, Ok};
ghost use Rattle.eslip_rounds.specs.Schedulers.{Scheduler};
ghost use Rattle.named_schedulers.specs.Named.{decision_named};
ghost use Rattle.outside.specs.Contents.{Contents, NoneRead, OnlyRead, held};
ghost use Rattle.outside.specs.Faults.{NeverFall, NoneRose, OnlyRose};
ghost use Rattle.journal_check.specs.declared.verdict.Verdict.TheVariants as verdict;
ghost use Rattle.job_files.specs.declared.check_ending.CheckEnding.TheVariants.{Yes};
ghost use Rattle.job_files.specs.Checks.{IsAnswered, MeansCheck, refused_by};

use crate::check_ending::CheckEnding;
use crate::journal_file::read_journal;
use crate::yes_lines::yes_lines;
use journal_check::{JournalFault, Verdict, check_journal_by};
use outside::{Files, put_out};
use rotating_pick::LEVEL_COUNT;
use scheduler_names::SchedulerName;
use std::alloc::Global;

/// Reads the journal file of this name, of at most 134,217,728 bytes, checks it by the named scheduler, of which its
/// matches must be, and tells of a lawful one on standard output: `yes`, how many slots it has, and the longest
/// wait of each level in slots. Nothing is given to standard output before the verdict is there, and no file changes.
pub fn check_file<F: Files>(
    alloc: Global,
    name: &str,
    scheduler: SchedulerName,
    files: &mut F,
) -> CheckEnding
    ensures meaning { (c : Contents) → MeansCheck (decision_named scheduler) name.now (held (F.seen c files.old) (F.seen c files.new)) (F.seen c files.new)
        (F.faults files.old) (F.faults files.new) result }
    ensures own { OnlyRead name.now F.seen files.old files.new }
    ensures no_fault { result ≡ Yes → NoneRose (F.faults files.old) (F.faults files.new) }
    ensures refused { OnlyRose (refused_by result) (F.faults files.old) (F.faults files.new) }
    ensures never_fall { NeverFall (F.faults files.old) (F.faults files.new) }
{
    let bytes = match read_journal(alloc, name, files) {
        Ok(bytes) => bytes,
        Err(ending) => return ending,
    };
    match check_journal_by(alloc, scheduler, &bytes) {
        Ok(Verdict::Yes { slots, longest }) => tell_yes(alloc, name, slots, &longest, files),
        Ok(Verdict::No { slot, reason }) => CheckEnding::No { slot, reason },
        Err(JournalFault::Bad { at }) => CheckEnding::Bad { at },
        Err(JournalFault::OutOfMemory) => CheckEnding::OutOfMemory,
    }
}

// Tells of the file of this name on standard output, where it is lawful.
fn tell_yes<F: Files>(
    alloc: Global,
    name: &str,
    slots: u32,
    longest: &[u32; LEVEL_COUNT],
    files: &mut F,
) -> CheckEnding
    ensures meaning { (scheduler : Scheduler) (c : Contents) → IsAnswered scheduler name.now (F.seen c files.old) (Ok (verdict.Yes slots longest.now))
        → MeansCheck scheduler name.now (F.seen c files.old) (F.seen c files.new) (F.faults files.old) (F.faults files.new) result }
    ensures own { NoneRead F.seen files.old files.new }
    ensures no_fault { result ≡ Yes → NoneRose (F.faults files.old) (F.faults files.new) }
    ensures refused { OnlyRose (refused_by result) (F.faults files.old) (F.faults files.new) }
    ensures never_fall { NeverFall (F.faults files.old) (F.faults files.new) }
{
    let Ok(text) = yes_lines(alloc, slots, longest) else {
        return CheckEnding::OutOfMemory;
    };
    match put_out(files, text.as_str().as_bytes()) {
        Ok(()) => CheckEnding::Yes,
        Err(_) => CheckEnding::OutFault,
    }
}
