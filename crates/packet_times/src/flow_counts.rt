ghost use Rattle.std.specs.Prelude.{◌≡◌, ◌<◌, slice_index};
ghost use Rattle.rotating_pick.specs.declared.limits.TheConstants.{MAX_PORTS};
ghost use Rattle.packet_times.specs.WalkingSteps.{own_place, with_one};
ghost use Rattle.packet_times.specs.KeptSteps.{counts_with};

use crate::rows::kind_of;
use card_core::Planned;
use reassembly::FLOWS_PER_INPUT;
use rotating_pick::{Kind, lowest, without};

/// How many flows an input has at most.
pub(crate) const MOST_FLOWS: usize = 512;

/// The place of a flow among those of its input.
pub(crate) fn place_of_own(output: u32, level: u8, kind: Kind) -> usize
    requires { output < MAX_PORTS }
    ensures { result ≡ own_place output level kind }
{
    let kind = match kind {
        Kind::Uni => 0,
        Kind::Multi => 1,
    };
    FLOWS_PER_INPUT * output as usize + 2 * level as usize + kind
}

// Counts one more at a place, if there is one.
fn count_one(counts: &mut [u32], place: usize)
    ensures { counts.new ≡ with_one counts.old place }
{
    if place < counts.len() {
        counts[place] = counts[place].saturating_add(1);
    }
}

/// The count at a place, 0 where there is none.
pub(crate) fn count_at(counts: &[u32], place: usize) -> u32
    ensures { result ≡ slice_index counts.now place }
{
    counts.get(place).copied().unwrap_or(0)
}

/// Counts a packet at its flow to each of its outputs.
pub(crate) fn count_packet(counts: &mut [u32], packet: &Planned)
    ensures { counts.new ≡ counts_with packet.now counts.old }
{
    let kind = kind_of(packet.fan);
    let mut left = packet.fan;
    while let Some(output) = lowest(left) {
        count_one(counts, place_of_own(output, packet.level, kind));
        left = without(left, output);
    }
}
