//! The checker of journal files for programs in C and other languages. It takes memory, by the program's
//! `malloc`, `realloc` and `free`.
//!
//! C can pass anything, so the function tests what it is passed.
#![tactic(auto)]

ghost use Rattle.std.specs.Prelude.{◌≡◌, ◌≤◌, ◌↔◌, ◌⊎◌, length};
ghost use Rattle.journal_check.specs.Verdicts.{answer_to};
ghost use Rattle.journal_c.specs.Answers.{Answers};

#[cfg(test)]
mod tests;
mod words;

use crate::words::{bad_words, verdict_words};
use journal_check::{JournalFault, MAX_JOURNAL_BYTES, check_journal};
use std::alloc::Global;
pub use words::VerdictWords;

// What a call answers that did what it is for, that was passed more than it takes, and that had no memory.
const DONE: u32 = 0;

const REFUSED: u32 = 1;

const NO_MEMORY: u32 = 2;

/// The verdict on the bytes of a journal file, of which there are at most 134,217,728.
#[unsafe(no_mangle)]
pub extern "C" fn tiny_tera_check_journal(
    alloc: Global,
    bytes: &[u8],
    verdict: &mut VerdictWords,
) -> u32
    // It answers 1 exactly where there are too many bytes, and 2 only without memory.
    ensures refused { (result ≡ 1 → ⊥) ↔ (length bytes.now ≤ MAX_JOURNAL_BYTES) }
    ensures status { (result ≡ 0) ⊎ (result ≡ 1) ⊎ (result ≡ 2) }
    ensures answer { result ≡ 0 → Answers (answer_to bytes.now) verdict.new }
    ensures unchanged { (result ≡ 0 → ⊥) → verdict.new ≡ verdict.old }
{
    if bytes.len() > MAX_JOURNAL_BYTES {
        return REFUSED;
    }
    *verdict = match check_journal(alloc, bytes) {
        Ok(answer) => verdict_words(answer),
        Err(JournalFault::Bad { at }) => bad_words(at),
        Err(JournalFault::OutOfMemory) => return NO_MEMORY,
    };
    DONE
}
