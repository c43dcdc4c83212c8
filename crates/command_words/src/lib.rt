//! The words of a command: the values of its options, its flags, and its names.
//!
//! Words are read from left to right. What begins with `--` is an option or a flag, at most once, in any order: the value
//! of an option stands behind its first `=` or is the next word, which may not begin with `-`. Another word that begins
//! with `-` is refused, but `-` alone is a name. Behind `--` each word is a name.
#![tactic(auto)]

mod fault;
mod numbers;
mod options;
mod parts;
mod reader;
mod words;

pub use fault::WordsFault;
pub use numbers::{MAX_DIGITS, limits_are, number_within};
pub use options::OptionNames;
pub use parts::Parts;
pub use reader::parts_of;
