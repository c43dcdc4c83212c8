ghost use Rattle.std.specs.Prelude.{◌≡◌, ◌+◌, ◌≤◌, length, MatchResult};
ghost use Rattle.journal_check.specs.Fields.{len_of, allows, is_from, most_slots, number_in, HasPorts};
ghost use Rattle.journal_check.specs.Steps.{IsRead, IsBadAt};

use crate::limits::MAX_JOURNAL_BYTES;
use board_state::{MAX_SLOTS, MAX_SLOTS_WIDE};
use byteorder::{BigEndian, ByteOrder};
use rotating_pick::{MAX_PORTS, MAX_ROUNDS, is_among, is_empty};

// What a journal file begins with: `TTJ1`.
pub(crate) const MAGIC: u64 = 0x5454_4a31;

// In place of an input: the output is free.
pub(crate) const NO_INPUT: u64 = 0xff;

// The greatest number of a byte.
const MAX_BYTE: u64 = 0xff;

// The greatest number of a level and a kind.
const MAX_RANK: u64 = 7;

// Switches of more ports have half as many slots at most.
const FEW_PORTS: u32 = 32;

// A field of a file: a number, big-endian.
#[derive(Clone, Copy)]
pub(crate) enum Field {
    // What the file begins with.
    Magic,
    // How many ports the switch has.
    Ports,
    // In how many rounds a slot is decided.
    Rounds,
    // Zeros.
    Zeros,
    // How many slots there are.
    Slots { ports: u32 },
    // Which sets of a row follow.
    Sets,
    // Whether more is to come.
    More,
    // A set of outputs.
    Set { ports: u32 },
    // The input that feeds an output.
    Input { ports: u32 },
    // The level and kind of what this input feeds the output.
    Rank { input: u64 },
}

// The place of a field that is cut off or has none of its values.
#[derive(Clone, Copy)]
pub(crate) struct BadField {
    pub(crate) at: u32,
}

impl Field {
    // How many bytes the field has.
    pub(crate) fn len(self) -> usize
        ensures { result ≡ len_of self }
    {
        match self {
            Field::Magic | Field::Slots { .. } => 4,
            Field::Zeros => 2,
            Field::Set { .. } => 8,
            _ => 1,
        }
    }

    // Whether the field may have the number.
    fn allows(self, number: u64) -> bool
        requires { HasPorts self }
        ensures { result ≡ allows self number }
    {
        match self {
            Field::Magic => number == MAGIC,
            Field::Ports => is_from(1, u64::from(MAX_PORTS), number),
            Field::Rounds => is_from(1, u64::from(MAX_ROUNDS), number),
            Field::Zeros => number == 0,
            Field::Slots { ports } => is_from(1, u64::from(most_slots(ports)), number),
            Field::Sets => is_from(0, MAX_BYTE, number),
            Field::More => is_from(0, 1, number),
            Field::Set { ports } => !is_empty(number) && is_among(ports, number),
            Field::Input { ports } => number < u64::from(ports) || number == NO_INPUT,
            Field::Rank { input } if input == NO_INPUT => number == 0,
            Field::Rank { .. } => is_from(0, MAX_RANK, number),
        }
    }
}

// Whether the number is one from `low` to `high`.
fn is_from(low: u64, high: u64, number: u64) -> bool
    ensures { result ≡ is_from low high number }
{
    low <= number && number <= high
}

// The most slots of a file.
fn most_slots(ports: u32) -> u32
    ensures { result ≡ most_slots ports }
{
    if ports > FEW_PORTS {
        MAX_SLOTS_WIDE
    } else {
        MAX_SLOTS
    }
}

// The number of the field that stands at the place.
pub(crate) fn read_number(bytes: &[u8], at: usize, field: Field) -> Result<u64, BadField>
    requires size { length bytes.now ≤ MAX_JOURNAL_BYTES }
    requires place { at ≤ length bytes.now }
    requires ports { HasPorts field }
    ensures { MatchResult result
        (λ number. IsRead (number_in field) bytes.now at number (at + len_of field))
        (λ bad. IsBadAt (number_in field) bytes.now at bad.at) }
{
    let len = field.len();
    if bytes.len() - at < len {
        return Err(BadField { at: at as u32 });
    }
    let number = BigEndian::read_uint(&bytes[at..], len);
    if field.allows(number) {
        Ok(number)
    } else {
        Err(BadField { at: at as u32 })
    }
}
