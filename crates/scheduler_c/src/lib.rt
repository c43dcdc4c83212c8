//! The schedulers of the switch for programs in C and other languages: functions over numbers, tables and
//! slices, which take no memory and keep nothing between calls.
//!
//! C can pass anything, so each function tests what it is passed. It answers 0 and writes what it is for, or
//! 1 and leaves everything as it was.
#![tactic(auto)]

mod decisions;
mod feeds;
mod four_levels;
mod many_slots;
mod matches;
mod one_level;
mod queue_sets;
mod rows;
mod status;
#[cfg(test)]
mod tests;
mod waits;
mod words;

pub use feeds::FeedWords;
pub use four_levels::{tiny_tera_decide, tiny_tera_decide_firm, tiny_tera_decide_rrm};
pub use many_slots::{
    tiny_tera_decide_many, tiny_tera_decide_many_firm, tiny_tera_decide_many_rrm,
};
pub use matches::tiny_tera_is_maximal;
pub use one_level::tiny_tera_islip_slot;
pub use status::tiny_tera_version;
pub use waits::tiny_tera_note_waits;
pub use words::RoundsWords;
