//! Laws of plans and of the made input: each is the contract of a call that does nothing.

ghost use Rattle.std.specs.Prelude.{ℕ, ◌<◌, ◌≤◌, false, map};
ghost use Rattle.pcap_records.specs.declared.link.Link.TheVariants.{Ethernet};
ghost use Rattle.pcap_records.specs.Format.{packet_of};
ghost use Rattle.pcap_records.specs.Captures.{IsCapture};
ghost use Rattle.switch_words.specs.declared.job.GenJob.{GenJob};
ghost use Rattle.switch_plan.specs.GoodPlans.{SwitchPlan, IsGood, IsBurst, IsWithin, IsCountable};
ghost use Rattle.switch_plan.specs.Refusals.{long_limits};
ghost use Rattle.switch_plan.specs.Made.{below, made_record, made_capture};

use rotating_pick::MAX_PORTS;
use switch_words::MAX_COUNT;

/// What `gen` makes for a port is a capture with the packets of its records, and so is read like any
/// other.
pub fn made_captures_are_captures()
    ensures { (job : GenJob) (port : ℕ) → job.count ≤ MAX_COUNT → port < MAX_PORTS
        → IsCapture (made_capture job port) false Ethernet (map (packet_of false) (map (made_record job port) (below job.count))) }
{}

/// All that a run of a plan of a burst counts fits in 32 bits, and of one within the limits of a long job.
pub fn plans_are_countable()
    ensures burst { (plan : SwitchPlan) → IsGood plan → IsBurst plan → IsCountable plan }
    ensures long { (plan : SwitchPlan) → IsGood plan → IsWithin long_limits plan → IsCountable plan }
{}
