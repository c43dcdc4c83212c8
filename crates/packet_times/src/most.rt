ghost use Rattle.std.specs.Prelude.{◌≡◌, ◌≤◌, ℕ, length, IfSome};
ghost use Rattle.eslip_rounds.specs.Schedulers.{Scheduler};
ghost use Rattle.switch_plan.specs.GoodPlans.{SwitchPlan};
ghost use Rattle.packet_times.specs.Rows.{packets_text_under};
ghost use Rattle.packet_times.specs.NotingSteps.{HasNoted};
ghost use Rattle.packet_times.specs.MostSteps.{IsNarrow, most_rows, AreCounted, AreAllCounted};

use crate::fields::MOST_ROW_BYTES;
use crate::inputs::Input;
use crate::times::{HEADER, PacketTimes};
use card_core::Planned;

// How many rows a packet has at most.
fn most_rows(packet: &Planned) -> u64
    ensures narrow { IsNarrow packet.now }
    ensures value { result ≡ most_rows packet.now }
{
    let packet = *packet;
    u64::from(packet.fan.count_ones().max(1))
}

// How many rows the packets of an input have at most, None where that does not fit.
fn most_of_packets(packets: &[Planned]) -> Option<u64>
    ensures { IfSome result (AreCounted packets.now) }
{
    let mut rows: u64 = 0;
    for packet in packets {
        let more = most_rows(packet);
        rows = rows.checked_add(more)?;
    }
    Some(rows)
}

// How many rows the packets of all inputs have at most, None where that does not fit.
fn most_of_inputs(inputs: &[Input]) -> Option<u64>
    ensures { IfSome result (AreAllCounted inputs.now) }
{
    let mut rows: u64 = 0;
    for input in inputs {
        let more = most_of_packets(input.packets())?;
        rows = rows.checked_add(more)?;
    }
    Some(rows)
}

impl PacketTimes {
    /// How many bytes the packets file has at most, of a run of which so many slots were noted: those of its header, and 256
    /// for each row. It makes no row. None where that number does not fit.
    pub fn most_bytes(&self) -> Option<u64>
        ensures { (scheduler : Scheduler) (plan : SwitchPlan) (slots : ℕ) → HasNoted scheduler plan self.now slots
            → IfSome result (λ most. length (packets_text_under scheduler plan slots) ≤ most) }
    {
        let rows = most_of_inputs(&self.inputs)?;
        let bytes = rows.checked_mul(MOST_ROW_BYTES as u64)?;
        bytes.checked_add(HEADER.len() as u64)
    }
}
