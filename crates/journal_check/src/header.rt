ghost use Rattle.std.specs.Prelude.{◌≡◌, ◌≤◌, ◌<◌, length, MatchResult, IfOk};
ghost use Rattle.journal_check.specs.Fields.{most_slots};
ghost use Rattle.journal_check.specs.Files.{header_in};
ghost use Rattle.journal_check.specs.Steps.{IsRead, IsBadAt, IsHeader};

use crate::fields::{BadField, Field, read_number};
use crate::limits::MAX_JOURNAL_BYTES;

// How many bytes the header has.
pub(crate) const HEADER_BYTES: usize = 12;

// The places of the header's fields.
const PORTS_AT: usize = 4;

const ROUNDS_AT: usize = 5;

const ZEROS_AT: usize = 6;

const SLOTS_AT: usize = 8;

// What the header of a file tells.
#[derive(Clone, Copy)]
pub(crate) struct Header {
    pub(crate) ports: u32,
    pub(crate) rounds: u32,
    pub(crate) slots: u32,
}

// The header of a file; its slots begin at place 12.
#[tactic(auto, unfolding(crate::specs::Files::header_in))]
pub(crate) fn read_header(bytes: &[u8]) -> Result<Header, BadField>
    requires { length bytes.now ≤ MAX_JOURNAL_BYTES }
    ensures read { MatchResult result
        (λ header. IsRead header_in bytes.now 0 header 12)
        (λ bad. IsBadAt header_in bytes.now 0 bad.at) }
    ensures limits { IfOk result IsHeader }
{
    read_number(bytes, 0, Field::Magic)?;
    let ports = read_number(bytes, PORTS_AT, Field::Ports)? as u32;
    let rounds = read_number(bytes, ROUNDS_AT, Field::Rounds)? as u32;
    read_number(bytes, ZEROS_AT, Field::Zeros)?;
    let slots = read_number(bytes, SLOTS_AT, Field::Slots { ports })? as u32;
    Ok(Header {
        ports,
        rounds,
        slots,
    })
}
