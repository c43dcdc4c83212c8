//! Tests of the whole switch: failing calls, files that no job's folder has, several workers, and two that meet.
//! Whole jobs on a disk are in `tests/jobs`.
#![tactic(auto)]

#[cfg(test)]
mod captures;
#[cfg(test)]
mod commands;
#[cfg(test)]
mod error_lines;
#[cfg(test)]
mod failing_calls;
#[cfg(test)]
mod fault_texts;
#[cfg(test)]
mod long_files;
#[cfg(test)]
mod meeting;
#[cfg(test)]
mod one_packet;
#[cfg(test)]
mod ways;
