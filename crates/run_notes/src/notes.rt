ghost use Rattle.std.specs.Prelude.{◌≡◌, ◌<◌, ◌≤◌, ◌+◌, ℕ, false, true, length, IfErr, IfOk, IfSome, OnOk};
ghost use Rattle.eslip_rounds.specs.Schedulers.{Scheduler, IsScheduler};
ghost use Rattle.eslip_rounds.specs.Decisions.{decision_of};
ghost use Rattle.switch_plan.specs.GoodPlans.{SwitchPlan, IsGood, IsBurst, IsCountable, switch_plan_of};
ghost use Rattle.run_laws.specs.Ends.{IsLength, IsLengthUnder};
ghost use Rattle.run_laws.specs.Runs.{run_journal};
ghost use Rattle.journal_check.specs.declared.limits.TheConstants.{MAX_JOURNAL_BYTES};
ghost use Rattle.packet_times.specs.declared.limits.TheConstants.{MAX_PACKETS_BYTES};
ghost use Rattle.idle_slots.specs.Skipped.{IsGap};
ghost use Rattle.run_sinks.specs.NotedSlots.{IsRunSlot};
ghost use Rattle.run_notes.specs.NotingSteps.{HasNoted, StopsTold, told_by};
ghost use Rattle.run_notes.specs.Told.{told_under};
ghost use Rattle.run_notes.specs.UnwantedSteps.{wants_any, wants_each, still_noted};

use crate::journal::{bytes_of, journal_for, put_slot_into};
use crate::packets::{note_times, packets_file, times_for};
use crate::queues::{measures_for, note_queues, queue_lines};
use crate::reference::{note_matched, reference_for, reference_lines, skip_matched};
use crate::slot_lines::{lines_for, lines_or_empty, put_line_of};
use crate::texts::{NotedTexts, NotesFault};
use crate::wanted::Wanted;
use crossbar::Post;
use islip_rounds::RoundsUsed;
use journal_check::JournalWriter;
use output_queued::Reference;
use packet_times::PacketTimes;
use queue_measures::QueueMeasures;
use rotating_pick::OutOfMemory;
use run_sinks::SlotSink;
use slot_board::Journal;
use slot_match::Match;
use std::alloc::Global;
use std::marker::Model;
use switch_plan::Plan;

/// What is noted of a run, slot by slot, for the texts that are wanted of it. No post is kept.
#[derive(Drop)]
pub struct RunNotes {
    wanted: Wanted,
    slots: Option<String>,
    journal: Option<JournalWriter>,
    reference: Option<Reference>,
    queues: Option<QueueMeasures>,
    packets: Option<PacketTimes>,
}

impl Model for RunNotes {
    ghost use Rattle.std.specs.Prelude.{option_map, string_bytes};
    ghost use Rattle.run_notes.specs.NotingSteps.{Notes};

    ghost Value = { Notes };

    ghost view = { λ n. record {
      wanted = n.wanted;
      slots = option_map string_bytes n.slots;
      journal = n.journal;
      reference = n.reference;
      queues = n.queues;
      packets = n.packets;
    } };
}

impl RunNotes {
    /// The notes of the run of a good plan that is countable, before slot 0, for the texts that are wanted. The
    /// plan is of a burst where its journal is wanted. Out of memory is the only error.
    pub fn make(alloc: Global, wanted: Wanted, plan: &Plan) -> Result<RunNotes, OutOfMemory>
        requires good { IsGood (switch_plan_of plan.now) }
        requires countable { IsCountable (switch_plan_of plan.now) }
        requires burst { wanted.journal ≡ true → IsBurst (switch_plan_of plan.now) }
        ensures wanted { IfOk result (λ notes. notes.wanted ≡ wanted) }
        ensures noted { IfOk result (λ notes. (scheduler : Scheduler) → HasNoted scheduler (switch_plan_of plan.now) notes 0) }
    {
        let slots = lines_for(alloc, wanted.slots);
        let journal = journal_for(alloc, wanted.journal, plan)?;
        let reference = reference_for(alloc, wanted.reference, plan)?;
        let queues = measures_for(alloc, wanted.queues, plan)?;
        let packets = times_for(alloc, wanted.packets, plan)?;
        Ok(RunNotes {
            wanted,
            slots,
            journal,
            reference,
            queues,
            packets,
        })
    }

    /// Notes all slots of the journal of a run at the board, of which none is noted. Out of memory is the only error;
    /// after it no text can be made of these notes.
    pub fn note_journal(&mut self, journal: &Journal) -> Result<(), OutOfMemory>
        requires { (plan : SwitchPlan) × (slots : ℕ) × IsLength plan slots × (journal.now.slots ≡ run_journal plan slots)
            × HasNoted decision_of plan self.old 0 }
        ensures wanted { OnOk result (self.new.wanted ≡ self.old.wanted) }
        ensures noted { (plan : SwitchPlan) (slots : ℕ) → IsLength plan slots → journal.now.slots ≡ run_journal plan slots
            → HasNoted decision_of plan self.old 0 → OnOk result (HasNoted decision_of plan self.new slots) }
    {
        for slot in 0..journal.slots() {
            self.note(
                slot,
                journal.posts(slot),
                journal.decided(slot),
                journal.used(slot),
            )?;
        }
        Ok(())
    }

    /// The texts of a run that has come to its end, of which all slots are noted. The journal's length is tested first, then
    /// that of the packets file, which has no limit where the run is long; the other error is out of memory.
    pub fn texts(self, alloc: Global, long: bool) -> Result<NotedTexts, NotesFault>
        requires { (scheduler : Scheduler) × (plan : SwitchPlan) × (slots : ℕ) × IsLengthUnder scheduler plan slots × HasNoted scheduler plan self slots }
        ensures made { (scheduler : Scheduler) (plan : SwitchPlan) (slots : ℕ) → IsLengthUnder scheduler plan slots
            → HasNoted scheduler plan self slots → IfOk result (λ texts. told_by texts ≡ told_under scheduler self.wanted plan slots) }
        ensures small_journal { IfOk result (λ texts. IfSome (told_by texts).journal (λ bytes. length bytes ≤ MAX_JOURNAL_BYTES)) }
        ensures small_packets { long ≡ false → IfOk result (λ texts. IfSome (told_by texts).packets (λ bytes. length bytes ≤ MAX_PACKETS_BYTES)) }
        ensures stops { (scheduler : Scheduler) (plan : SwitchPlan) (slots : ℕ) → IsLengthUnder scheduler plan slots
            → HasNoted scheduler plan self slots → IfErr result (StopsTold scheduler self.wanted long plan slots) }
    {
        let journal = bytes_of(self.journal)?;
        let packets = packets_file(self.packets, long)?;
        let reference = reference_lines(alloc, &self.reference)?;
        let queues = queue_lines(alloc, &self.queues)?;
        let slots = lines_or_empty(alloc, self.slots);
        Ok(NotedTexts {
            slots,
            journal,
            reference,
            queues,
            packets,
        })
    }
}

impl SlotSink for RunNotes {
    type Wanted = Wanted;

    ghost wanted = { λ notes. notes.wanted };

    ghost wants_any = { wants_any };

    ghost wants_each = { wants_each };

    ghost noted = { λ notes scheduler plan t. HasNoted scheduler plan notes t };

    ghost unwanted = { still_noted };

    fn wants_slots(&self) -> bool {
        self.wanted.is_any()
    }

    fn wants_gaps(&self) -> bool {
        self.wanted.is_each()
    }

    // Once memory ran out no text can be made of these notes.
    fn note(
        &mut self,
        slot: u32,
        posts: &[Post],
        matched: &Match,
        numbers: RoundsUsed,
    ) -> Result<(), OutOfMemory> {
        reference_run::laws::slots_may_be_noted();
        put_line_of(&mut self.slots, slot, matched, numbers)?;
        put_slot_into(&mut self.journal, posts, matched)?;
        note_matched(&mut self.reference, matched);
        note_queues(&mut self.queues, slot, posts, matched);
        note_times(&mut self.packets, slot, posts, matched)
    }

    // Of the queues and the packets all stays as it was.
    fn skip(&mut self, slot: u32, next: u32) {
        reference_run::laws::gaps_may_be_skipped();
        queue_measures::laws::gaps_keep_measures();
        packet_times::laws::gaps_keep_times();
        skip_matched(&mut self.reference, next - slot);
    }
}
