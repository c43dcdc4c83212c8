//! The fields of a row, read and written: levels and names of cells.
ghost use Rattle.std.specs.Prelude.{◌<◌, IfOk};

use cell_cutter::CellName;
use rotating_pick::LEVELS;
use std::alloc::{AllocError, Global};
use test_vectors::NoAnswer;

/// A priority level: 0 to 3.
pub fn level(text: &str) -> Result<u8, NoAnswer>
    ensures { IfOk result (λ level. level < LEVELS) }
{
    match text.parse::<u8>() {
        Ok(level) if u32::from(level) < LEVELS => Ok(level),
        _ => Err(NoAnswer),
    }
}

/// A cell that waits: its packet's number, which of the packet's cells it is, and whether it is the last.
pub fn cell_name_text(alloc: Global, name: CellName) -> Result<String, AllocError> {
    let packet = name.packet;
    let number = name.number;
    let end = if name.last { "last" } else { "more" };
    format!(in alloc; "{packet} {number} {end}")
}
