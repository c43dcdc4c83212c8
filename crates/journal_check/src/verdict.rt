ghost use Rattle.std.specs.Prelude.{◌≡◌};
ghost use Rattle.journal_check.specs.declared.verdict.JournalFault.TheVariants.{Bad, OutOfMemory};

use crate::fields::BadField;
use rotating_pick::{LEVEL_COUNT, OutOfMemory};
use std::error::Error;
use std::fmt;

/// Why a slot of a file is not one that may follow the slots before it.
#[derive(Clone, Copy, Debug, PartialEq, Eq)]
pub enum Reason {
    /// In the slot before no line card said that more is to come.
    AfterEnd,
    /// The card posted a row that names an output, and did not say that more is to come.
    More {
        /// The card's number.
        card: u32,
    },
    /// The card's row does not keep what was left of its row of the slot before.
    Keeps {
        /// The card's number.
        card: u32,
    },
    /// The output is not fed as the scheduler decides.
    Output {
        /// The output's number.
        output: u32,
    },
    /// In the last slot some line card said that more is to come.
    NoEnd,
}

// A slot that fails, and why.
#[derive(Clone, Copy, Debug, PartialEq, Eq)]
pub(crate) struct Failure {
    pub(crate) slot: u32,
    pub(crate) reason: Reason,
}

/// The verdict on a journal file.
#[derive(Clone, Copy, Debug, PartialEq, Eq)]
pub enum Verdict {
    /// The file is lawful.
    Yes {
        /// How many slots it has.
        slots: u32,
        /// For each level, for how many slots at most a unicast queue was posted and not served.
        longest: [u32; LEVEL_COUNT],
    },
    /// The file is not lawful.
    No {
        /// The first slot that fails, from 0 on.
        slot: u32,
        /// Why, the first reason of those that there are.
        reason: Reason,
    },
}

/// Why a file has no verdict.
#[derive(Clone, Copy, Debug, PartialEq, Eq)]
pub enum JournalFault {
    /// The bytes are not those of a journal file.
    Bad {
        /// The place of the first field that is cut off or has none of its values, or of the first
        /// byte after the last slot.
        at: u32,
    },
    /// There was no memory.
    OutOfMemory,
}

impl From<BadField> for JournalFault {
    ghost from_gives = { λ bad fault. fault ≡ Bad bad.at };

    fn from(bad: BadField) -> JournalFault {
        JournalFault::Bad { at: bad.at }
    }
}

impl From<OutOfMemory> for JournalFault {
    ghost from_gives = { λ _ fault. fault ≡ OutOfMemory };

    fn from(_error: OutOfMemory) -> JournalFault {
        JournalFault::OutOfMemory
    }
}

impl fmt::Display for JournalFault {
    ghost use Rattle.std.specs.Prelude.{Some};
    ghost use Rattle.journal_check.specs.FaultTexts.{text_of};

    ghost output = { λ fault. Some (text_of fault) };

    fn fmt<W: fmt::Write>(&self, f: &mut fmt::Formatter<W>) -> fmt::Result {
        match self {
            JournalFault::Bad { at } => write!(f, "bad at {at}"),
            JournalFault::OutOfMemory => f.write_str("out of memory"),
        }
    }
}

impl Error for JournalFault {}
