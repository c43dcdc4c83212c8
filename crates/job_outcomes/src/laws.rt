//! Laws of jobs and of what they read, as the contracts of functions that do nothing.

ghost use Rattle.std.specs.Prelude.{◌≡◌, ◌⊎◌, ℕ, Bool, List, All, Ok, Some, length};
ghost use Rattle.pcap_records.specs.declared.fault.PcapFault.{PcapFault};
ghost use Rattle.pcap_records.specs.declared.link.Link.{Link};
ghost use Rattle.pcap_records.specs.Packets.{Packet};
ghost use Rattle.pcap_records.specs.Captures.{IsCapture};
ghost use Rattle.pcap_records.specs.Faults.{IsFault};
ghost use Rattle.forward_table.specs.declared.route_lines.RouteLine.{RouteLine};
ghost use Rattle.forward_table.specs.Reading.{reading_of};
ghost use Rattle.forward_table.specs.Routes.{AreRoutesOf};
ghost use Rattle.switch_words.specs.declared.job.GenJob.{GenJob};
ghost use Rattle.switch_words.specs.declared.job.Settings.{Settings};
ghost use Rattle.switch_words.specs.Limits.{AreWithinLimits, IsUpTo};
ghost use Rattle.switch_words.specs.Reading.{JobWords, gen};
ghost use Rattle.switch_words.specs.Reading.{reading_of as job_of};
ghost use Rattle.switch_plan.specs.declared.fault.PlanFault.{PlanFault};
ghost use Rattle.switch_plan.specs.Refusals.{IsRefusal, terms_of};
ghost use Rattle.switch_plan.specs.Made.{made_captures, made_table};
ghost use Rattle.switch_plan.specs.GoodPlans.{SwitchPlan};
ghost use Rattle.switch_run.specs.Switched.{IsPlanned};
ghost use Rattle.job_outcomes.specs.Outcomes.{AreBytes, HasOneOutcome, IsByteFile, IsGiven};

use rotating_pick::MAX_PORTS;

/// A file of bytes is a capture or has a fault.
pub fn each_file_is_a_capture_or_has_a_fault()
    ensures { (file : List ℕ) → AreBytes file
        → ((nano : Bool) × (link : Link) × (packets : List Packet) × IsCapture file nano link packets) ⊎ ((fault : PcapFault) × IsFault file fault) }
{}

/// A table that was read for a switch has routes of the switch: each goes to one of its ports at least, and to no others.
pub fn each_table_has_routes_of_the_switch()
    ensures { (ports : ℕ) (text : List ℕ) (table : List RouteLine) → reading_of ports text ≡ Ok table → AreRoutesOf ports table }
{}

/// What nothing refuses has a plan: a table, and captures of 1 to 64 ports, under settings within their limits.
pub fn what_nothing_refuses_has_a_plan()
    ensures { (settings : Settings) (table : List ℕ) (files : List (List ℕ)) → AreWithinLimits settings → IsUpTo MAX_PORTS (length files)
        → All IsByteFile files → ((fault : PlanFault) → IsRefusal (terms_of settings) table files fault → ⊥)
        → (plan : SwitchPlan) × IsPlanned settings table files plan }
{}

/// Each job has one outcome. Whatever the bytes of its table and of its captures are, there is exactly one of these: texts,
/// the first cause for which it is refused, a journal that would be too long, or a packets file that would be. So it is of a
/// `gen` job, which makes these bytes.
pub fn each_job_has_one_outcome()
    ensures given { (words : List (List ℕ)) (job : JobWords) (table : List ℕ) (captures : List (List ℕ)) → IsGiven words job table captures
        → HasOneOutcome job table captures }
    ensures made { (words : List (List ℕ)) (job : GenJob) → job_of words ≡ Some (gen job)
        → HasOneOutcome (gen job) (made_table job.ports) (made_captures job) }
{}
