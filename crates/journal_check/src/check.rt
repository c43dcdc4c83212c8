ghost use Rattle.std.specs.Prelude.{◌≡◌, ◌≤◌, ◌<◌, ◌+◌, ◌⊎◌, ℕ, Err, List, [], length, MatchResult};
ghost use Rattle.std.specs.List.{range_with_len};
ghost use Rattle.scheduler_names.specs.declared.names.SchedulerName.TheVariants.{Islip};
ghost use Rattle.named_schedulers.specs.Named.{decision_named};
ghost use Rattle.journal_check.specs.Fields.{each_in};
ghost use Rattle.journal_check.specs.Files.{FileSlot, slot_in};
ghost use Rattle.journal_check.specs.Verdicts.{answer_to, answer_under};
ghost use Rattle.journal_check.specs.Steps.{IsRead, IsBadAt, IsHeader, IsFor, IsJudged};

use crate::fields::BadField;
use crate::header::{HEADER_BYTES, Header, read_header};
use crate::judge::Judge;
use crate::limits::MAX_JOURNAL_BYTES;
use crate::slots::{SlotRead, read_slot};
use crate::verdict::{JournalFault, Verdict};
use named_schedulers::NamedScheduler;
use scheduler_names::SchedulerName;
use std::alloc::Global;

/// The verdict on a journal file of at most 134,217,728 bytes: whether it is one that a switch may have
/// left. The scheduler decides each slot anew, from the rows of the file.
///
/// Bytes that are not those of a journal file are answered by the place of the first bad field. The one
/// other error is that there was no memory, which may come in place of any answer. Memory is taken once,
/// for the waits: for each input and level 64 numbers and some more. Beside it and the file, two slots
/// are kept. No clause says this of memory.
pub fn check_journal(alloc: Global, bytes: &[u8]) -> Result<Verdict, JournalFault>
    requires { length bytes.now ≤ MAX_JOURNAL_BYTES }

    // The answer is that of the definition, unless there is no memory.
    ensures { (result ≡ Err JournalFault.OutOfMemory) ⊎ (result ≡ answer_to bytes.now) }
{
    check_journal_by(alloc, SchedulerName::Islip, bytes)
}

/// The same by the scheduler of this name: the file is lawful where its matches are those that this scheduler
/// decides. Errors and memory as for `check_journal`, which is the same by iSLIP.
pub fn check_journal_by(
    alloc: Global,
    scheduler: SchedulerName,
    bytes: &[u8],
) -> Result<Verdict, JournalFault>
    requires { length bytes.now ≤ MAX_JOURNAL_BYTES }

    // The answer is that of the definition, unless there is no memory.
    ensures { (result ≡ Err JournalFault.OutOfMemory) ⊎ (result ≡ answer_under (decision_named scheduler) bytes.now) }
{
    let header = read_header(bytes)?;
    let scheduler = NamedScheduler::new(scheduler);
    let mut judge = Judge::make(alloc, scheduler, header.ports, header.rounds)?;
    let end = judge_slots(bytes, header, &mut judge)?;
    if end < bytes.len() {
        return Err(JournalFault::Bad { at: end as u32 });
    }
    Ok(judge.verdict(header.slots))
}

// Reads all slots of a file, judges them one after another, and answers the place behind them.
fn judge_slots(bytes: &[u8], header: Header, judge: &mut Judge) -> Result<usize, BadField>
    requires size { length bytes.now ≤ MAX_JOURNAL_BYTES }
    requires place { 12 ≤ length bytes.now }
    requires header { IsHeader header }
    requires ready { IsFor header.ports header.rounds 0 judge.old }
    requires judged { IsJudged (decision_named judge.old.scheduler) header.ports header.rounds [] judge.old }
    ensures { MatchResult result
        (λ next. (slots : List FileSlot) × IsRead (each_in (λ t. slot_in header.ports) (range_with_len 0 header.slots)) bytes.now 12 slots next
        × (length slots ≡ header.slots) × IsJudged (decision_named judge.old.scheduler) header.ports header.rounds slots judge.new
        × (judge.new.meter.ports ≡ header.ports))
        (λ bad. IsBadAt (each_in (λ t. slot_in header.ports) (range_with_len 0 header.slots)) bytes.now 12 bad.at) }
{
    let mut slot = SlotRead::empty();
    let mut at = HEADER_BYTES;
    for t in 0..header.slots {
        at = read_slot(bytes, at, header.ports, &mut slot)?;
        judge.judge(t, header.ports, &slot);
    }
    Ok(at)
}
