ghost use Rattle.std.specs.Prelude.{◌≡◌};

/// Bytes of a cell: its header and its payload.
pub const CELL_BYTES: usize = CELL_HEADER_BYTES + PAYLOAD_BYTES;

/// Bytes of a cell's header: input, level, kind, last, used, a zero and two of the number.
pub const CELL_HEADER_BYTES: usize = 8;

/// Bytes of a cell's payload.
pub const PAYLOAD_BYTES: usize = 56;

/// Bytes of a message before the captured bytes: seconds, nanoseconds, captured and original length.
pub const MESSAGE_HEADER_BYTES: usize = 16;

/// The most captured bytes that a record of a capture can have.
pub const MAX_CAPTURED_BYTES: u32 = 262_144;

/// The most captured bytes of a packet that is forwarded, and so cut into cells.
pub const MAX_FORWARDED_BYTES: usize = 65_535;

/// The most bytes of the message of a packet that is forwarded: 65,551.
pub const MAX_MESSAGE_BYTES: usize = MESSAGE_HEADER_BYTES + MAX_FORWARDED_BYTES;

/// The most cells of a packet that is forwarded: 1,171.
pub const MAX_FORWARDED_CELLS: u32 = (MAX_MESSAGE_BYTES + PAYLOAD_BYTES - 1) as u32
    / PAYLOAD_BYTES as u32;

/// The most cells that a packet of a capture takes on its line: 4,682.
pub const MAX_CAPTURED_CELLS: u32 = (MESSAGE_HEADER_BYTES as u32
    + MAX_CAPTURED_BYTES
    + PAYLOAD_BYTES as u32
    - 1)
    / PAYLOAD_BYTES as u32;

/// The greatest number that a cell of a forwarded packet can have: 1,170.
pub const MAX_NUMBER: u16 = MAX_FORWARDED_CELLS as u16 - 1;

/// The sizes by their numbers. It does nothing; its contract says the numbers, which contracts
/// elsewhere name by the constants.
pub fn sizes_are()
    ensures cell { CELL_BYTES ≡ 64 }
    ensures payload { PAYLOAD_BYTES ≡ 56 }
    ensures message_header { MESSAGE_HEADER_BYTES ≡ 16 }
    ensures captured { MAX_CAPTURED_BYTES ≡ 262144 }
    ensures forwarded { MAX_FORWARDED_BYTES ≡ 65535 }
    ensures message { MAX_MESSAGE_BYTES ≡ 65551 }
    ensures cells { MAX_FORWARDED_CELLS ≡ 1171 }
    ensures line_cells { MAX_CAPTURED_CELLS ≡ 4682 }
    ensures number { MAX_NUMBER ≡ 1170 }
{}
