//! Laws of journal files, as the contracts of functions that do nothing, except for one that goes over a journal.

ghost use Rattle.std.specs.Prelude.{◌≡◌, ℕ, ◌+◌, ◌*◌, ◌<◌, ◌≤◌, ◌↔◌, Ok, None, List, All, Any, length, take, drop, map};
ghost use Rattle.rotating_pick.specs.declared.kinds.Kind.TheVariants.{Uni};
ghost use Rattle.slot_match.specs.Rows.{Names, row_of, HasHead, AreWithin};
ghost use Rattle.slot_match.specs.Matches.{Serves, Completes};
ghost use Rattle.pointer_state.specs.Places.{places_at_first};
ghost use Rattle.eslip_rounds.specs.Schedulers.{Scheduler, StayAtPorts, IsScheduler};
ghost use Rattle.eslip_rounds.specs.Schedules.{IsScheduleBy, IsSchedule};
ghost use Rattle.firm_rounds.specs.Slots.{AreMovedByFirm};
ghost use Rattle.firm_rounds.specs.Decisions.{firm_decision};
ghost use Rattle.rrm_rounds.specs.Slots.{AreMovedByRrm};
ghost use Rattle.rrm_rounds.specs.Decisions.{rrm_decision};
ghost use Rattle.service_bound.specs.Windows.{InFirst, AreKept, IsClean, IsWithoutMulticast};
ghost use Rattle.service_bound.specs.Waits.{longest_service_by};
ghost use Rattle.slot_histories.specs.declared.events.Event.{Event};
ghost use Rattle.slot_histories.specs.Events.{Setup};
ghost use Rattle.slot_histories.specs.Legal.{IsLegal};
ghost use Rattle.board_state.specs.Boards.{IsSetup, IsFinished, board_journal};
ghost use Rattle.journal_check.specs.Files.{JournalFile, journal_in};
ghost use Rattle.journal_check.specs.Texts.{IsFile, HaveLevels, file_of, file_text};
ghost use Rattle.journal_check.specs.Lawful.{first_failure_under, decided_slots_under, decided_slots, IsLawfulUnder, IsLawful};
ghost use Rattle.journal_check.specs.declared.verdict.Reason.{Reason};
ghost use Rattle.journal_check.specs.declared.verdict.Verdict.TheVariants.{Yes, No};
ghost use Rattle.journal_check.specs.Verdicts.{yes_on, answer_under, answer_to};
ghost use Rattle.journal_check.specs.Failures.{AreLawfulUnder, AreNotLawfulUnder};

use crate::bytes::journal_len;
use board_state::Journal;

/// What is spelled of a file is read again: just that file. What is read is what a file can tell, and bytes
/// are read as no file but the one that they spell, so no file has a second spelling.
pub fn files_are_their_texts()
    ensures read { (file : JournalFile) → IsFile file → journal_in (file_text file) ≡ Ok file }
    ensures good { (bytes : List ℕ) (file : JournalFile) → journal_in bytes ≡ Ok file → IsFile file }
    ensures texts { (bytes : List ℕ) (file : JournalFile) → All (λ b. b < 256) bytes → journal_in bytes ≡ Ok file → bytes ≡ file_text file }
{}

/// A file has no failure exactly where it is lawful, under each scheduler.
pub fn files_without_failure_are_lawful()
    ensures { (scheduler : Scheduler) (file : JournalFile) → IsScheduler scheduler → IsFile file
        → (first_failure_under scheduler file ≡ None) ↔ IsLawfulUnder scheduler file }
{}

/// The answer to bytes says exactly what they are: yes where they are those of a lawful file, with the number of its
/// slots and the longest waits of its schedule; and no where they are those of a file of which this slot is the first
/// that may not follow what is before it, for this reason, which is the first that there is. It does under each scheduler.
pub fn answers_are_exact()
    ensures yes { (scheduler : Scheduler) (bytes : List ℕ) (slots : ℕ) (longest : List ℕ) → IsScheduler scheduler → All (λ b. b < 256) bytes
        → (answer_under scheduler bytes ≡ Ok (Yes slots longest)) ↔ AreLawfulUnder scheduler bytes slots longest }
    ensures no { (scheduler : Scheduler) (bytes : List ℕ) (slot : ℕ) (reason : Reason) → IsScheduler scheduler → All (λ b. b < 256) bytes
        → (answer_under scheduler bytes ≡ Ok (No slot reason)) ↔ AreNotLawfulUnder scheduler bytes slot reason }
{}

/// The slots of a lawful file are a schedule from slot 0 and all pointers at port 0 on, of rows that name
/// none but the ports and are kept until they are served. Those of a file that is lawful under FIRM or round-robin
/// matching are one too, whose pointers move as that scheduler's do; those of a file that is lawful under any scheduler
/// are one whose pointers stay at ports.
pub fn lawful_files_are_schedules()
    ensures schedule { (file : JournalFile) → IsFile file → IsLawful file
        → IsSchedule file.ports file.rounds 0 (places_at_first file.ports) (decided_slots file) }
    ensures by_firm { (file : JournalFile) → IsFile file → IsLawfulUnder firm_decision file
        → IsScheduleBy AreMovedByFirm file.ports file.rounds 0 (places_at_first file.ports) (decided_slots_under firm_decision file) }
    ensures by_rrm { (file : JournalFile) → IsFile file → IsLawfulUnder rrm_decision file
        → IsScheduleBy AreMovedByRrm file.ports file.rounds 0 (places_at_first file.ports) (decided_slots_under rrm_decision file) }
    ensures by_any { (scheduler : Scheduler) (file : JournalFile) → IsScheduler scheduler → IsFile file → IsLawfulUnder scheduler file
        → IsScheduleBy StayAtPorts file.ports file.rounds 0 (places_at_first file.ports) (decided_slots_under scheduler file) }
    ensures within { (scheduler : Scheduler) (file : JournalFile) → IsFile file
        → All (λ slot. AreWithin file.ports slot.rows) (decided_slots_under scheduler file) }
    ensures kept { (scheduler : Scheduler) (file : JournalFile) → IsScheduler scheduler → IsFile file → IsLawfulUnder scheduler file
        → AreKept file.ports (decided_slots_under scheduler file) }
    ensures matches { (scheduler : Scheduler) (file : JournalFile) → IsLawfulUnder scheduler file
        → map (λ slot. slot.decision.matched) (decided_slots_under scheduler file) ≡ map (λ slot. slot.matched) file.slots }
{}

/// The bounds on waiting hold of a lawful file, in all its slots one after another that name nothing at a
/// better level: a unicast queue that is posted in the first of them is served in one of the first
/// `longest_service` slots, where there is no multicast of its level, and a multicast head that is
/// posted in the first completes in one of the first `2 * n`.
pub fn lawful_files_keep_the_bounds()
    ensures unicast { (file : JournalFile) (level first count i j : ℕ) → IsFile file → IsLawful file → i < file.ports
        → All (λ slot. IsClean file.ports level slot.rows) (take count (drop first (decided_slots file)))
        → All (λ slot. IsWithoutMulticast file.ports level slot.rows) (take count (drop first (decided_slots file)))
        → InFirst (λ rows. Names (row_of rows i) level Uni j) (take count (drop first (decided_slots file)))
        → longest_service_by file.ports file.rounds ≤ length (take count (drop first (decided_slots file)))
        → Any (λ slot. Serves slot.decision.matched i j level Uni) (take count (drop first (decided_slots file))) }
    ensures multicast { (file : JournalFile) (level first count i : ℕ) → IsFile file → IsLawful file → i < file.ports
        → All (λ slot. IsClean file.ports level slot.rows) (take count (drop first (decided_slots file)))
        → InFirst (λ rows. HasHead rows level i) (take count (drop first (decided_slots file)))
        → 2 * file.ports ≤ length (take count (drop first (decided_slots file)))
        → Any (λ slot. HasHead slot.rows level i × Completes slot.rows slot.decision.matched level i) (take count (drop first (decided_slots file))) }
{}

/// So do bounds of a file that is lawful under FIRM, in which such a unicast queue is served in one of the first `n * n`
/// slots and such a multicast head completes in one of the first `2 * n`.
pub fn lawful_files_keep_the_bounds_of_firm()
    ensures unicast { (file : JournalFile) (level first count i j : ℕ) → IsFile file → IsLawfulUnder firm_decision file → i < file.ports
        → All (λ slot. IsClean file.ports level slot.rows) (take count (drop first (decided_slots_under firm_decision file)))
        → All (λ slot. IsWithoutMulticast file.ports level slot.rows) (take count (drop first (decided_slots_under firm_decision file)))
        → InFirst (λ rows. Names (row_of rows i) level Uni j) (take count (drop first (decided_slots_under firm_decision file)))
        → file.ports * file.ports ≤ length (take count (drop first (decided_slots_under firm_decision file)))
        → Any (λ slot. Serves slot.decision.matched i j level Uni) (take count (drop first (decided_slots_under firm_decision file))) }
    ensures multicast { (file : JournalFile) (level first count i : ℕ) → IsFile file → IsLawfulUnder firm_decision file → i < file.ports
        → All (λ slot. IsClean file.ports level slot.rows) (take count (drop first (decided_slots_under firm_decision file)))
        → InFirst (λ rows. HasHead rows level i) (take count (drop first (decided_slots_under firm_decision file)))
        → 2 * file.ports ≤ length (take count (drop first (decided_slots_under firm_decision file)))
        → Any (λ slot. HasHead slot.rows level i × Completes slot.rows slot.decision.matched level i)
        (take count (drop first (decided_slots_under firm_decision file))) }
{}

/// Of a file that is lawful under round-robin matching the bound on multicast holds: such a head completes in one of the
/// first `2 * n` slots. There is none on unicast, which it can starve.
pub fn lawful_files_keep_the_bound_of_rrm()
    ensures { (file : JournalFile) (level first count i : ℕ) → IsFile file → IsLawfulUnder rrm_decision file → i < file.ports
        → All (λ slot. IsClean file.ports level slot.rows) (take count (drop first (decided_slots_under rrm_decision file)))
        → InFirst (λ rows. HasHead rows level i) (take count (drop first (decided_slots_under rrm_decision file)))
        → 2 * file.ports ≤ length (take count (drop first (decided_slots_under rrm_decision file)))
        → Any (λ slot. HasHead slot.rows level i × Completes slot.rows slot.decision.matched level i)
        (take count (drop first (decided_slots_under rrm_decision file))) }
{}

/// The journal of a board on which every line card has taken the last slot is a lawful file: its bytes
/// are answered yes, with the number of slots that were decided and their longest waits.
pub fn journals_are_lawful()
    ensures file { (s : Setup) (events : List Event) → IsSetup s → IsLegal s events → IsFinished (record { setup = s; events = events })
        → HaveLevels (file_of (board_journal (record { setup = s; events = events })))
        → IsFile (file_of (board_journal (record { setup = s; events = events }))) }
    ensures lawful { (s : Setup) (events : List Event) → IsSetup s → IsLegal s events → IsFinished (record { setup = s; events = events })
        → IsLawful (file_of (board_journal (record { setup = s; events = events }))) }
    ensures answer { (s : Setup) (events : List Event) → IsSetup s → IsLegal s events → IsFinished (record { setup = s; events = events })
        → HaveLevels (file_of (board_journal (record { setup = s; events = events })))
        → answer_to (file_text (file_of (board_journal (record { setup = s; events = events })))) ≡ Ok
        (yes_on (file_of (board_journal (record { setup = s; events = events })))) }
{}

/// The same of a journal that a board has handed out, of which the rows need not be told to have all levels: its bytes
/// are answered yes. It goes over the slots once, and takes no memory.
pub fn finished_journals_are_lawful(journal: &Journal)
    ensures { (s : Setup) (events : List Event) → IsSetup s → IsLegal s events → IsFinished (record { setup = s; events = events })
        → journal.now ≡ board_journal (record { setup = s; events = events })
        → answer_to (file_text (file_of journal.now)) ≡ Ok (yes_on (file_of journal.now)) }
{
    // Tells the proof that the rows of the journal have all levels.
    let _len = journal_len(journal);
}
