//! Tests of the command: files on a disk and in memory, a check whose output fails, and lines that no job shows.
#![tactic(auto)]

#[cfg(test)]
mod checks;
#[cfg(test)]
mod disk_files;
#[cfg(test)]
mod error_lines;
#[cfg(test)]
mod memory_files;
