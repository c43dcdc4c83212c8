ghost use Rattle.std.specs.Prelude.{◌≡◌, ◌≢◌, ◌≤◌, Some, length, IfErr, IfOk, IfSome, OnOk};
ghost use Rattle.eslip_rounds.specs.Schedulers.{Scheduler};
ghost use Rattle.outside.specs.Contents.{Contents, NoneChanged, OnlyRead};
ghost use Rattle.outside.specs.Faults.{NeverFall, NoneRose, OnlyRose};
ghost use Rattle.job_files.specs.declared.check_ending.CheckEnding.TheVariants.{Yes};
ghost use Rattle.job_files.specs.Checks.{MeansCheck, refused_by};

use crate::check_ending::CheckEnding;
use journal_check::MAX_JOURNAL_BYTES;
use outside::{Files, ReadFailure, read_buffer, read_whole};
use std::alloc::Global;

/// All bytes of the named file, of which there are at most 134,217,728.
pub(crate) fn read_journal<F: Files>(
    alloc: Global,
    name: &str,
    files: &mut F,
) -> Result<Vec<u8>, CheckEnding>
    ensures seen { NoneChanged F.seen files.old files.new }
    ensures own { OnlyRead name.now F.seen files.old files.new }
    ensures no_fault { OnOk result (NoneRose (F.faults files.old) (F.faults files.new)) }
    ensures refused { IfErr result (λ ending. OnlyRose (refused_by ending) (F.faults files.old) (F.faults files.new)) }
    ensures never_fall { NeverFall (F.faults files.old) (F.faults files.new) }
    ensures bytes { (c : Contents) → IfOk result (λ v. IfSome (F.seen c files.new) (λ d. d.file name.now ≡ Some v.items)) }
    ensures fits { IfOk result (λ v. length v.items ≤ MAX_JOURNAL_BYTES) }
    ensures no_yes { IfErr result (λ ending. ending ≢ Yes) }
    ensures stops { (scheduler : Scheduler) (c : Contents)
        → IfErr result (MeansCheck scheduler name.now (F.seen c files.new) (F.seen c files.new) (F.faults files.old) (F.faults files.new)) }
{
    let mut piece = read_buffer(alloc).map_err(|_| CheckEnding::OutOfMemory)?;
    match read_whole(alloc, files, name, MAX_JOURNAL_BYTES, piece.as_mut_slice()) {
        Ok(bytes) => Ok(bytes),
        Err(ReadFailure::Fault) => Err(CheckEnding::ReadFault),
        Err(ReadFailure::TooLong) => Err(CheckEnding::TooLong),
        Err(ReadFailure::OutOfMemory) => Err(CheckEnding::OutOfMemory),
    }
}
