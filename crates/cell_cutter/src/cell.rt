ghost use Rattle.std.specs.Prelude.{◌≡◌, ◌≢◌, ◌^◌, ◌<◌, ◌↔◌, IsTrue, Some, IsNone, IfSome, replicate, length};
ghost use Rattle.cell_cutter.specs.Kinds.{kind_byte, flag_byte};
ghost use Rattle.cell_cutter.specs.Cells.{IsCellForm, cell_bytes};

use crate::sizes::{CELL_BYTES, CELL_HEADER_BYTES, MAX_NUMBER, PAYLOAD_BYTES};
use rotating_pick::{Kind, LEVELS, MAX_PORTS};

/// What crosses the switch in one slot: a part of a packet's message.
#[derive(Clone, Copy, Debug, PartialEq, Eq, Hash)]
pub struct Cell {
    /// The input port that the packet came from, 0 to 63.
    pub input: u8,
    /// The packet's priority level, 0 to 3.
    pub level: u8,
    /// Whether the packet leaves by one output or by several.
    pub kind: Kind,
    /// Whether the message ends with this cell.
    pub last: bool,
    /// How many bytes of the payload are the message's: 56, or 1 to 56 in a last cell.
    pub used: u8,
    /// Which cell of the message it is, 0 to 1,170.
    pub number: u16,
    /// The bytes of the message, followed by zeros.
    pub payload: [u8; PAYLOAD_BYTES],
}

/// A cell that was not cut yet: the packet's number, and which of its cells it is.
#[derive(Clone, Copy, Debug, PartialEq, Eq, Hash)]
pub struct CellName {
    /// The packet's number on its line card.
    pub packet: u32,
    /// Which cell of the packet's message it is, 0 to 1,170.
    pub number: u16,
    /// Whether the message ends with this cell.
    pub last: bool,
}

impl Cell {
    /// Whether the cell is of the form of a cell: each field within its range, `used` 56 unless it is
    /// a last cell, and zeros after the used bytes.
    pub fn is_of_form(&self) -> bool
        ensures { IsTrue result ↔ IsCellForm self.now }
    {
        let used = self.used as usize;
        let used_fits = if self.last {
            0 < used && used <= PAYLOAD_BYTES
        } else {
            used == PAYLOAD_BYTES
        };
        (self.input as u32) < MAX_PORTS
            && (self.level as u32) < LEVELS
            && self.number <= MAX_NUMBER
            && used_fits
            && is_blank(&self.payload[used..])
    }

    /// The 64 bytes of a cell that is of the form (`is_of_form()`).
    pub fn to_bytes(&self) -> [u8; CELL_BYTES]
        requires { IsCellForm self.now }
        ensures { result ≡ cell_bytes self.now }
    {
        let Cell {
            input,
            level,
            kind,
            last,
            used,
            number,
            payload,
        } = self;
        let [high, low] = number.to_be_bytes();
        let header = [
            *input,
            *level,
            kind_byte(*kind),
            u8::from(*last),
            *used,
            0,
            high,
            low,
        ];
        let mut bytes = [0; CELL_BYTES];
        bytes[..CELL_HEADER_BYTES].copy_from_slice(&header);
        bytes[CELL_HEADER_BYTES..].copy_from_slice(payload);
        bytes
    }

    /// The cell that the bytes are, or None exactly where they are no cell of the form.
    pub fn from_bytes(bytes: &[u8; CELL_BYTES]) -> Option<Cell>
        // What is read writes the same bytes.
        ensures writes { IfSome result (λ cell. IsCellForm cell × (cell_bytes cell ≡ bytes.now)) }
        // What a cell of the form writes is read again.
        ensures reads { (cell : Cell) → IsCellForm cell → cell_bytes cell ≡ bytes.now → result ≡ Some cell }
        ensures none { IsNone result ↔ ((cell : Cell) → IsCellForm cell → cell_bytes cell ≢ bytes.now) }
    {
        let cell = read(bytes)?;
        if cell.is_of_form() { Some(cell) } else { None }
    }
}

// The cell with these 64 bytes, of the form or not.
fn read(bytes: &[u8; CELL_BYTES]) -> Option<Cell>
    ensures number { IfSome result (λ cell. cell.number < 2 ^ 16) }
    ensures same { IfSome result (λ cell. cell_bytes cell ≡ bytes.now) }
    ensures none { IsNone result → (cell : Cell) → cell_bytes cell ≢ bytes.now }
{
    let kind = kind_of(bytes[2])?;
    let last = flag_of(bytes[3])?;
    if bytes[5] != 0 {
        return None;
    }
    let mut payload = [0; PAYLOAD_BYTES];
    payload.copy_from_slice(&bytes[CELL_HEADER_BYTES..]);
    Some(Cell {
        input: bytes[0],
        level: bytes[1],
        kind,
        last,
        used: bytes[4],
        number: u16::from_be_bytes([bytes[6], bytes[7]]),
        payload,
    })
}

// The byte that stands for a kind.
fn kind_byte(kind: Kind) -> u8
    ensures { result ≡ kind_byte kind }
{
    match kind {
        Kind::Uni => 0,
        Kind::Multi => 1,
    }
}

// The kind that a byte stands for.
fn kind_of(byte: u8) -> Option<Kind>
    ensures some { IfSome result (λ kind. kind_byte kind ≡ byte) }
    ensures none { IsNone result → 1 < byte }
{
    match byte {
        0 => Some(Kind::Uni),
        1 => Some(Kind::Multi),
        _ => None,
    }
}

// The yes or no that a byte stands for.
fn flag_of(byte: u8) -> Option<bool>
    ensures some { IfSome result (λ flag. flag_byte flag ≡ byte) }
    ensures none { IsNone result → 1 < byte }
{
    match byte {
        0 => Some(false),
        1 => Some(true),
        _ => None,
    }
}

// Whether all bytes are 0.
fn is_blank(bytes: &[u8]) -> bool
    ensures { IsTrue result ↔ (bytes.now ≡ replicate (length bytes.now) 0) }
{
    bytes.iter().all(|byte| *byte == 0)
}
