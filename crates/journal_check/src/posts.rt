ghost use Rattle.std.specs.Prelude.{◌≡◌, ◌≤◌, ◌<◌, ◌+◌, ◌∷◌, [], length, MatchResult, IfOk};
ghost use Rattle.slot_match.specs.Rows.{IsWithin};
ghost use Rattle.journal_check.specs.Fields.{each_in};
ghost use Rattle.journal_check.specs.Files.{set_in, row_in, post_in};
ghost use Rattle.journal_check.specs.Steps.{IsRead, IsBadAt};

use crate::fields::{BadField, Field, read_number};
use crate::limits::MAX_JOURNAL_BYTES;
use rotating_pick::{LEVEL_COUNT, LEVELS, MAX_PORTS, Ports, contains};
use slot_match::Row;

// What stands in a file of a card's post.
#[derive(Clone, Copy)]
pub(crate) struct FilePost {
    pub(crate) row: Row,
    pub(crate) more: bool,
}

// A value that was read, and the place behind it.
#[derive(Clone, Copy)]
pub(crate) struct Found<T> {
    pub(crate) value: T,
    pub(crate) next: usize,
}

// The set of outputs whose bit among the sets is given, the empty one if that is not set.
fn read_set(
    bytes: &[u8],
    at: usize,
    ports: u32,
    sets: u64,
    bit: u32,
) -> Result<Found<Ports>, BadField>
    requires size { length bytes.now ≤ MAX_JOURNAL_BYTES }
    requires place { at ≤ length bytes.now }
    requires some { 0 < ports }
    requires few { ports ≤ MAX_PORTS }
    requires bit { bit < MAX_PORTS }
    ensures { MatchResult result
        (λ set. IsRead (set_in ports sets bit) bytes.now at set.value set.next)
        (λ bad. IsBadAt (set_in ports sets bit) bytes.now at bad.at) }
{
    if !contains(sets, bit) {
        return Ok(Found { value: 0, next: at });
    }
    let field = Field::Set { ports };
    let value = read_number(bytes, at, field)?;
    Ok(Found {
        value,
        next: at + field.len(),
    })
}

// The sets of the four levels whose bits are `first` and the three after it.
fn read_sets(
    bytes: &[u8],
    at: usize,
    ports: u32,
    sets: u64,
    first: u32,
) -> Result<Found<[Ports; LEVEL_COUNT]>, BadField>
    requires size { length bytes.now ≤ MAX_JOURNAL_BYTES }
    requires place { at ≤ length bytes.now }
    requires some { 0 < ports }
    requires few { ports ≤ MAX_PORTS }
    requires first { first ≤ LEVELS }
    ensures { MatchResult result
        (λ four. IsRead (each_in (set_in ports sets) (first ∷ (first + 1) ∷ (first + 2) ∷ (first + 3) ∷ [])) bytes.now at four.value four.next)
        (λ bad. IsBadAt (each_in (set_in ports sets) (first ∷ (first + 1) ∷ (first + 2) ∷ (first + 3) ∷ [])) bytes.now at bad.at) }
{
    let best = read_set(bytes, at, ports, sets, first)?;
    let second = read_set(bytes, best.next, ports, sets, first + 1)?;
    let third = read_set(bytes, second.next, ports, sets, first + 2)?;
    let last = read_set(bytes, third.next, ports, sets, first + 3)?;
    Ok(Found {
        value: [best.value, second.value, third.value, last.value],
        next: last.next,
    })
}

// The row of which these sets are there.
#[tactic(auto, unfolding(crate::specs::Files::row_in))]
fn read_row(bytes: &[u8], at: usize, ports: u32, sets: u64) -> Result<Found<Row>, BadField>
    requires size { length bytes.now ≤ MAX_JOURNAL_BYTES }
    requires place { at ≤ length bytes.now }
    requires some { 0 < ports }
    requires few { ports ≤ MAX_PORTS }
    ensures { MatchResult result
        (λ row. IsRead (row_in ports sets) bytes.now at row.value row.next)
        (λ bad. IsBadAt (row_in ports sets) bytes.now at bad.at) }
{
    let first = read_sets(bytes, at, ports, sets, 0)?;
    let rest = read_sets(bytes, first.next, ports, sets, LEVELS)?;
    let uni = first.value;
    let multi = rest.value;
    Ok(Found {
        value: Row { uni, multi },
        next: rest.next,
    })
}

// The post that stands at the place.
#[tactic(auto, unfolding(crate::specs::Files::post_in))]
pub(crate) fn read_post(bytes: &[u8], at: usize, ports: u32) -> Result<Found<FilePost>, BadField>
    requires size { length bytes.now ≤ MAX_JOURNAL_BYTES }
    requires place { at ≤ length bytes.now }
    requires some { 0 < ports }
    requires few { ports ≤ MAX_PORTS }
    ensures { MatchResult result
        (λ post. IsRead (post_in ports) bytes.now at post.value post.next)
        (λ bad. IsBadAt (post_in ports) bytes.now at bad.at) }
{
    let sets = read_number(bytes, at, Field::Sets)?;
    let more = read_number(bytes, at + 1, Field::More)?;
    let row = read_row(bytes, at + 2, ports, sets)?;
    Ok(Found {
        value: FilePost {
            row: row.value,
            more: more == 1,
        },
        next: row.next,
    })
}
