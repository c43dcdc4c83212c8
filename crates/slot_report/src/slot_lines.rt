//! The lines of a journal's slots.
ghost use Rattle.std.specs.Prelude.{◌≡◌, ◌++◌, OnOk, option_to_list, string_bytes};
ghost use Rattle.std.specs.List.{flat_map};
ghost use Rattle.std.specs.Option.{option_copied};
ghost use Rattle.slot_report.specs.Lines.{line_text, lines_text};
ghost use Rattle.slot_report.specs.PieceSteps.{after_space};
ghost use Rattle.slot_report.specs.Texts.{journal_line, map_with_place, pair_at, pairs_of, slot_line, slots_of};

use crate::lines::Word::{Name, Number, Pair};
use crate::lines::put_words;
use board_state::Journal;
use islip_rounds::RoundsUsed;
use slot_match::{Fed, Match};
use std::alloc::AllocError;

// The most bytes of a slot's line, without the outputs that are matched.
const SLOT_BYTES: usize = 49;

// The most bytes of a matched output, with the space before it.
const PAIR_BYTES: usize = 9;

// Appends what feeds an output after a space, or nothing.
fn put_fed(text: &mut String, output: u32, fed: Option<Fed>) -> Result<(), AllocError>
    ensures { OnOk result (string_bytes text.new ≡ string_bytes text.old ++ flat_map after_space (option_to_list (pair_at output fed))) }
{
    match fed {
        Some(fed) => put_words(text, &[Pair(output, fed)]),
        None => Ok(()),
    }
}

// Appends what feeds each output, each after a space.
fn put_pairs(text: &mut String, matched: &Match) -> Result<(), AllocError>
    ensures { OnOk result (string_bytes text.new ≡ string_bytes text.old ++ flat_map after_space (pairs_of matched.now)) }
{
    for output in 0..matched.ports() {
        put_fed(text, output, matched.fed(output))?;
    }
    Ok(())
}

/// Appends the line of a slot: its number, how its rounds were used, and its match. The only error is out of memory.
pub fn put_slot_line(
    text: &mut String,
    slot: u32,
    numbers: RoundsUsed,
    matched: &Match,
) -> Result<(), AllocError>
    ensures { OnOk result (string_bytes text.new ≡ string_bytes text.old ++ line_text (slot_line slot numbers matched.now)) }
{
    text.push_str("slot")?;
    let words = [
        Number(slot),
        Name("used"),
        Number(numbers.used),
        Name("first"),
        Number(numbers.first),
    ];
    put_words(text, &words)?;
    put_pairs(text, matched)?;
    text.push_str("\n")
}

// Appends the line of each slot.
fn put_all_slots(text: &mut String, journal: &Journal) -> Result<(), AllocError>
    ensures { OnOk result (string_bytes text.new ≡ string_bytes text.old ++ lines_text (map_with_place journal_line journal.now.slots)) }
{
    for slot in 0..journal.slots() {
        put_slot_line(text, slot, journal.used(slot), journal.decided(slot))?;
    }
    Ok(())
}

/// Appends the line of each slot of the journal, if there is one.
pub(crate) fn put_slots(text: &mut String, slots: Option<&Journal>) -> Result<(), AllocError>
    ensures { OnOk result (string_bytes text.new ≡ string_bytes text.old ++ lines_text (map_with_place journal_line (slots_of (option_copied slots.entry)))) }
{
    match slots {
        Some(journal) => put_all_slots(text, journal),
        None => Ok(()),
    }
}

/// How many bytes the lines of the journal's slots have at most, as far as a `usize` can tell.
pub(crate) fn slots_bytes(slots: Option<&Journal>) -> usize {
    let Some(journal) = slots else {
        return 0;
    };
    let mut bytes = 0usize;
    for slot in 0..journal.slots() {
        let pairs = PAIR_BYTES * journal.decided(slot).count() as usize;
        bytes = bytes.saturating_add(SLOT_BYTES + pairs);
    }
    bytes
}
