ghost use Rattle.std.specs.Prelude.{◌≡◌, ◌++◌, ◌∷◌, map, OnOk, string_bytes};
ghost use Rattle.std.specs.List.{flat_map};
ghost use Rattle.slot_report.specs.Lines.{line_text};
ghost use Rattle.slot_report.specs.PieceSteps.{after_space, word_text};
ghost use Rattle.slot_report.specs.Texts.{letter_of, pair_text};

use itoa::{Buffer, Integer};
use rotating_pick::Kind;
use slot_match::Fed;
use std::alloc::AllocError;

/// A word of a line.
#[derive(Clone, Copy)]
pub(crate) enum Word<'a> {
    Name(&'a str),
    /// In decimal digits.
    Number(u32),
    /// An output and what feeds it.
    Pair(u32, Fed),
}

// Appends the decimal digits of a number.
fn put_digits<I: Integer>(text: &mut String, number: I) -> Result<(), AllocError>
    ensures { OnOk result (string_bytes text.new ≡ string_bytes text.old ++ I.text number) }
{
    text.push_str(Buffer::new().format(number))
}

// The letter of a kind: `u` for unicast, `m` for multicast.
fn letter(kind: Kind) -> &'static str
    ensures { result.now ≡ letter_of kind }
{
    match kind {
        Kind::Uni => "u",
        Kind::Multi => "m",
    }
}

// Appends what feeds an output, as `0>2:1u`: input, output, level and kind.
fn put_pair(text: &mut String, output: u32, fed: Fed) -> Result<(), AllocError>
    ensures { OnOk result (string_bytes text.new ≡ string_bytes text.old ++ pair_text output fed) }
{
    put_digits(text, fed.input)?;
    text.push_str(">")?;
    put_digits(text, output)?;
    text.push_str(":")?;
    put_digits(text, fed.level)?;
    text.push_str(letter(fed.kind))
}

// Appends a word.
fn put_word(text: &mut String, word: &Word) -> Result<(), AllocError>
    ensures { OnOk result (string_bytes text.new ≡ string_bytes text.old ++ word_text word.now) }
{
    match *word {
        Word::Name(name) => text.push_str(name),
        Word::Number(number) => put_digits(text, number),
        Word::Pair(output, fed) => put_pair(text, output, fed),
    }
}

/// Appends the words, each after a space.
pub(crate) fn put_words(text: &mut String, words: &[Word]) -> Result<(), AllocError>
    ensures { OnOk result (string_bytes text.new ≡ string_bytes text.old ++ flat_map after_space (map word_text words.now)) }
{
    for word in words {
        text.push_str(" ")?;
        put_word(text, word)?;
    }
    Ok(())
}

/// Appends the line of these words, of which `name` is the first.
pub(crate) fn put_line(text: &mut String, name: &str, words: &[Word]) -> Result<(), AllocError>
    ensures { OnOk result (string_bytes text.new ≡ string_bytes text.old ++ line_text (name.now ∷ map word_text words.now)) }
{
    text.push_str(name)?;
    put_words(text, words)?;
    text.push_str("\n")
}
