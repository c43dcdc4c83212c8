/// The most route lines of a table.
pub const MAX_LINES: u32 = 4096;
