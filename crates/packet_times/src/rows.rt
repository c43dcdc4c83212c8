ghost use Rattle.std.specs.Prelude.{◌≡◌, ℕ};
ghost use Rattle.cell_cutter.specs.Messages.{cells_of_packet};
ghost use Rattle.card_core.specs.Plans.{queue_for, kind_of as queue_kind};
ghost use Rattle.packet_times.specs.KeptSteps.{kept_state};

use crate::state::PacketState;
use card_core::Planned;
use cell_cutter::{MAX_FORWARDED_BYTES, MESSAGE_HEADER_BYTES, PAYLOAD_BYTES};
use rotating_pick::{Kind, Ports, only};

/// How many cells a packet of so many bytes has, also one that is too long to be forwarded.
pub(crate) fn size_of(len: u32) -> u64
    ensures { result ≡ cells_of_packet len }
{
    (MESSAGE_HEADER_BYTES as u64 + u64::from(len)).div_ceil(PAYLOAD_BYTES as u64)
}

/// The kind of a packet with this fan-out: unicast where it has one port.
pub(crate) fn kind_of(fan: Ports) -> Kind
    ensures { (level : ℕ) → result ≡ queue_kind (queue_for fan level) }
{
    match only(fan) {
        Some(_) => Kind::Uni,
        None => Kind::Multi,
    }
}

/// What became of a packet, which was admitted or not.
pub(crate) fn state_of(packet: &Planned, admitted: bool) -> PacketState
    ensures { result ≡ kept_state packet.now admitted }
{
    if packet.fan == 0 {
        if packet.len > MAX_FORWARDED_BYTES as u32 {
            PacketState::Oversize
        } else {
            PacketState::Unrouted
        }
    } else if admitted {
        PacketState::Forwarded
    } else {
        PacketState::Dropped
    }
}
