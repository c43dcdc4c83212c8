ghost use Rattle.std.specs.Prelude.{◌≡◌};
ghost use Rattle.journal_c.specs.Answers.{reason_word, port_word, verdict_words, bad_words};

use journal_check::{Reason, Verdict};

// The word of no port and of no reason.
const NONE: u32 = 0xffff_ffff;

/// The verdict on a journal file.
#[repr(C)]
#[derive(Clone, Copy, Debug, PartialEq, Eq)]
pub struct VerdictWords {
    /// 0: it is lawful; 1: it is not; 2: it is no journal file.
    pub answer: u32,
    /// At 0 the number of slots, at 1 the slot that fails, at 2 the place of the first byte of the first bad field.
    pub number: u32,
    /// At 1 why it fails: 0 it comes after a slot whose cards all said that nothing is to come, 1 a card posts
    /// outputs and says that nothing is to come, 2 a card's row does not keep what was left of its row before,
    /// 3 an output is not fed as the scheduler decides, 4 it is the last one, and some card said that more is to
    /// come. Else 0xffffffff.
    pub reason: u32,
    /// At 1 and reason 1 or 2 the card, at reason 3 the output. Else 0xffffffff.
    pub port: u32,
    /// At 0 for each level the longest wait, in slots. Else 0.
    pub longest: [u32; 4],
}

/// The words of a verdict.
pub(crate) fn verdict_words(verdict: Verdict) -> VerdictWords
    ensures { result ≡ verdict_words verdict }
{
    match verdict {
        Verdict::Yes { slots, longest } => VerdictWords {
            answer: 0,
            number: slots,
            reason: NONE,
            port: NONE,
            longest,
        },
        Verdict::No { slot, reason } => VerdictWords {
            answer: 1,
            number: slot,
            reason: reason_word(reason),
            port: port_word(reason),
            longest: [0; 4],
        },
    }
}

/// The words of bytes that are no journal file, of which the field at this place is the first bad one.
pub(crate) fn bad_words(at: u32) -> VerdictWords
    ensures { result ≡ bad_words at }
{
    VerdictWords {
        answer: 2,
        number: at,
        reason: NONE,
        port: NONE,
        longest: [0; 4],
    }
}

// The number of a reason.
fn reason_word(reason: Reason) -> u32
    ensures { result ≡ reason_word reason }
{
    match reason {
        Reason::AfterEnd => 0,
        Reason::More { .. } => 1,
        Reason::Keeps { .. } => 2,
        Reason::Output { .. } => 3,
        Reason::NoEnd => 4,
    }
}

// The card or the output that the reason names.
fn port_word(reason: Reason) -> u32
    ensures { result ≡ port_word reason }
{
    match reason {
        Reason::More { card } | Reason::Keeps { card } => card,
        Reason::Output { output } => output,
        Reason::AfterEnd | Reason::NoEnd => NONE,
    }
}
