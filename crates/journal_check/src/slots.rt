ghost use Rattle.std.specs.Prelude.{◌≡◌, ◌≤◌, ◌<◌, ◌+◌, List, Option, length, take, map, MatchResult, IfOk};
ghost use Rattle.std.specs.List.{range_with_len};
ghost use Rattle.slot_match.specs.declared.matching.Fed.{Fed};
ghost use Rattle.slot_match.specs.Rows.{AreWithin};
ghost use Rattle.journal_check.specs.declared.posts.FilePost.{FilePost};
ghost use Rattle.journal_check.specs.Fields.{each_in};
ghost use Rattle.journal_check.specs.Files.{FileSlot, post_in, fed_by, output_in, slot_in};
ghost use Rattle.journal_check.specs.Steps.{IsRead, IsBadAt, IsSlotRead};

use crate::fields::{BadField, Field, NO_INPUT, read_number};
use crate::limits::MAX_JOURNAL_BYTES;
use crate::posts::{Found, read_post};
use rotating_pick::{Kind, MAX_PORTS, PORT_COUNT};
use slot_match::{Fed, Row};

// A slot of a file, in the first places: a row and `more` for each card, and what feeds each output.
#[derive(Clone, Copy)]
pub(crate) struct SlotRead {
    pub(crate) rows: [Row; PORT_COUNT],
    pub(crate) more: [bool; PORT_COUNT],
    pub(crate) fed: [Option<Fed>; PORT_COUNT],
}

impl SlotRead {
    // A slot of nothing.
    pub(crate) fn empty() -> SlotRead {
        SlotRead {
            rows: [Row::empty(); PORT_COUNT],
            more: [false; PORT_COUNT],
            fed: [None; PORT_COUNT],
        }
    }
}

// The posts that stand at the place, one for each port, and the place behind them.
fn read_posts(
    bytes: &[u8],
    at: usize,
    ports: u32,
    rows: &mut [Row; PORT_COUNT],
    more: &mut [bool; PORT_COUNT],
) -> Result<usize, BadField>
    requires size { length bytes.now ≤ MAX_JOURNAL_BYTES }
    requires place { at ≤ length bytes.now }
    requires some { 0 < ports }
    requires few { ports ≤ MAX_PORTS }
    ensures { MatchResult result
        (λ next. (posts : List FilePost) × IsRead (each_in (λ i. post_in ports) (range_with_len 0 ports)) bytes.now at posts next
        × (take ports rows.new ≡ map (λ post. post.row) posts) × (take ports more.new ≡ map (λ post. post.more) posts))
        (λ bad. IsBadAt (each_in (λ i. post_in ports) (range_with_len 0 ports)) bytes.now at bad.at) }
{
    let mut next = at;
    for i in 0..ports as usize {
        let post = read_post(bytes, next, ports)?;
        rows[i] = post.value.row;
        more[i] = post.value.more;
        next = post.next;
    }
    Ok(next)
}

// What feeds an output, by its two numbers.
fn fed_by(input: u64, rank: u64) -> Option<Fed>
    requires input { input < 256 }
    requires rank { rank < 8 }
    ensures { result ≡ fed_by input rank }
{
    if input == NO_INPUT {
        return None;
    }
    let kind = if rank % 2 == 0 {
        Kind::Uni
    } else {
        Kind::Multi
    };
    Some(Fed {
        input: input as u32,
        level: (rank / 2) as u8,
        kind,
    })
}

// What feeds the output that stands at the place; the next one is two bytes further.
#[tactic(auto, unfolding(crate::specs::Files::output_in))]
fn read_output(bytes: &[u8], at: usize, ports: u32) -> Result<Option<Fed>, BadField>
    requires size { length bytes.now ≤ MAX_JOURNAL_BYTES }
    requires place { at ≤ length bytes.now }
    requires few { ports ≤ MAX_PORTS }
    ensures { MatchResult result
        (λ fed. IsRead (output_in ports) bytes.now at fed (at + 2))
        (λ bad. IsBadAt (output_in ports) bytes.now at bad.at) }
{
    let input = read_number(bytes, at, Field::Input { ports })?;
    let rank = read_number(bytes, at + 1, Field::Rank { input })?;
    Ok(fed_by(input, rank))
}

// The outputs that stand at the place, one for each port, and the place behind them.
fn read_outputs(
    bytes: &[u8],
    at: usize,
    ports: u32,
    fed: &mut [Option<Fed>; PORT_COUNT],
) -> Result<usize, BadField>
    requires size { length bytes.now ≤ MAX_JOURNAL_BYTES }
    requires place { at ≤ length bytes.now }
    requires few { ports ≤ MAX_PORTS }
    ensures { MatchResult result
        (λ next. IsRead (each_in (λ j. output_in ports) (range_with_len 0 ports)) bytes.now at (take ports fed.new) next)
        (λ bad. IsBadAt (each_in (λ j. output_in ports) (range_with_len 0 ports)) bytes.now at bad.at) }
{
    let mut next = at;
    for j in 0..ports as usize {
        fed[j] = read_output(bytes, next, ports)?;
        next += 2;
    }
    Ok(next)
}

// Reads the slot that stands at the place, and answers the place behind it.
#[tactic(auto, unfolding(crate::specs::Files::slot_in))]
pub(crate) fn read_slot(
    bytes: &[u8],
    at: usize,
    ports: u32,
    slot: &mut SlotRead,
) -> Result<usize, BadField>
    requires size { length bytes.now ≤ MAX_JOURNAL_BYTES }
    requires place { at ≤ length bytes.now }
    requires some { 0 < ports }
    requires few { ports ≤ MAX_PORTS }
    ensures read { MatchResult result
        (λ next. (value : FileSlot) × IsRead (slot_in ports) bytes.now at value next × IsSlotRead ports slot.new value)
        (λ bad. IsBadAt (slot_in ports) bytes.now at bad.at) }
{
    let outputs_at = read_posts(bytes, at, ports, &mut slot.rows, &mut slot.more)?;
    read_outputs(bytes, outputs_at, ports, &mut slot.fed)
}
