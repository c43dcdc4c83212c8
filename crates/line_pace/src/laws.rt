//! Laws of arrivals: each is the contract of a call that does nothing.

ghost use Rattle.std.specs.Prelude.{◌≡◌};

use crate::arrival_slots::{MAX_ARRIVAL_SLOTS, MAX_CAPTURE_PACKETS};
use crate::pace::{MAX_LINE_RATE, MAX_SLOT_MICROS};
use cell_cutter::MAX_CAPTURED_CELLS;

/// The limits of a port's packets: at most 1,048,576 packets, as many as records of 16 bytes in a file of
/// 16,777,216 bytes; 131,072 arrival slots; 4,682 cells of a packet, those of a message with 262,144
/// captured bytes; 1,000,000 microseconds of a slot; and 1,600,000 megabits a second.
pub fn limits_are()
    ensures packets { MAX_CAPTURE_PACKETS ≡ 1048576 }
    ensures slots { MAX_ARRIVAL_SLOTS ≡ 131072 }
    ensures cells { MAX_CAPTURED_CELLS ≡ 4682 }
    ensures micros { MAX_SLOT_MICROS ≡ 1000000 }
    ensures rate { MAX_LINE_RATE ≡ 1600000 }
{}
