ghost use Rattle.std.specs.Prelude.{◌≡◌, Err, Some, None, OnOk, IfOk, map, option_map, string_bytes};
ghost use Rattle.command_words.specs.Parts.{no_parts};
ghost use Rattle.command_words.specs.Reading.{after_name, after_value, after_word, ended, open_with, parts_of, read_open, read_word};
ghost use Rattle.command_words.specs.Words.{word_of};
ghost use Rattle.command_words.specs.WordSteps.{word_value};

use crate::fault::WordsFault;
use crate::options::OptionNames;
use crate::parts::Parts;
use crate::words::{Word, word_of};
use std::alloc::Global;
use std::marker::Model;

/// The parts of the words of a command with these options.
///
/// `Usage` comes exactly where the words have none, unless memory runs out: a word is refused, an option or a flag is not
/// the command's or is repeated, a flag has a value, or an option has none. `OutOfMemory` may come in place of any answer.
pub fn parts_of<'a>(
    alloc: Global,
    names: &OptionNames<'_>,
    words: &'a [String],
) -> Result<Parts<'a>, WordsFault>
    ensures parts { IfOk result (λ parts. parts_of names.now (map string_bytes words.now) ≡ Some parts) }
    ensures usage { result ≡ Err WordsFault.Usage → parts_of names.now (map string_bytes words.now) ≡ None }
{
    let mut reader = WordReader::new(alloc);
    for word in words {
        reader.read(names, word.as_str())?;
    }
    reader.finish()
}

// What is read so far.
#[derive(Drop)]
struct WordReader<'a> {
    parts: Parts<'a>,
    // The option whose value the next word has to be.
    awaited: Option<&'a str>,
    // Whether `--` has come.
    is_closed: bool,
}

impl<'a> Model for WordReader<'a> {
    ghost use Rattle.std.specs.Prelude.{option_map};
    ghost use Rattle.command_words.specs.Reading.{Reading};

    ghost Value = { Reading };

    ghost view = { λ r. record { parts = r.parts; awaited = option_map (λ name. name.now) r.awaited; is_closed = r.is_closed } };
}

impl<'a> WordReader<'a> {
    fn new(alloc: Global) -> WordReader<'a>
        ensures { result ≡ open_with no_parts }
    {
        WordReader {
            parts: Parts::new(alloc),
            awaited: None,
            is_closed: false,
        }
    }

    // Reads one more word.
    fn read(&mut self, names: &OptionNames<'_>, text: &'a str) -> Result<(), WordsFault>
        ensures read { OnOk result (read_word names.now self.old text.now ≡ Some self.new) }
        ensures refused { result ≡ Err WordsFault.Usage → read_word names.now self.old text.now ≡ None }
    {
        if self.is_closed {
            self.parts.add_name(text)?;
            return Ok(());
        }
        match self.awaited.take() {
            None => self.read_word(names, text),
            Some(option) => self.read_value(option, text),
        }
    }

    // Reads a word where options may stand.
    fn read_word(&mut self, names: &OptionNames<'_>, text: &'a str) -> Result<(), WordsFault>
        requires open { self.old ≡ open_with self.old.parts }
        ensures read { OnOk result (read_open names.now self.old.parts None text.now ≡ Some self.new) }
        ensures refused { result ≡ Err WordsFault.Usage → read_open names.now self.old.parts None text.now ≡ None }
    {
        match word_of(text) {
            Word::Closing => self.is_closed = true,
            Word::Dashed(name, value) => self.read_name(names, name, value)?,
            Word::Plain => self.parts.add_name(text)?,
            Word::Refused => return Err(WordsFault::Usage),
        }
        Ok(())
    }

    // Reads the name of an option or a flag, with the value behind its `=` if there is one.
    fn read_name(
        &mut self,
        names: &OptionNames<'_>,
        name: &'a str,
        value: Option<&'a str>,
    ) -> Result<(), WordsFault>
        requires open { self.old ≡ open_with self.old.parts }
        ensures read { OnOk result (after_name names.now self.old.parts name.now (option_map (λ text. text.now) value.entry) ≡ Some self.new) }
        ensures refused { result ≡ Err WordsFault.Usage → after_name names.now self.old.parts name.now (option_map (λ text. text.now) value.entry) ≡ None }
    {
        match value {
            Some(text) if names.has_value(name) => self.parts.add_text(name, text),
            None if names.has_value(name) => {
                self.awaited = Some(name);
                Ok(())
            },
            None if names.is_flag(name) => self.parts.add_flag(name),
            _ => Err(WordsFault::Usage),
        }
    }

    // Reads the value of an option.
    fn read_value(&mut self, option: &'a str, text: &'a str) -> Result<(), WordsFault>
        requires open { self.old ≡ open_with self.old.parts }
        ensures read { OnOk result (after_value self.old.parts option.now text.now (word_of text.now) ≡ Some self.new) }
        ensures refused { result ≡ Err WordsFault.Usage → after_value self.old.parts option.now text.now (word_of text.now) ≡ None }
    {
        match word_of(text) {
            Word::Plain => self.parts.add_text(option, text),
            Word::Closing | Word::Dashed(_, _) | Word::Refused => Err(WordsFault::Usage),
        }
    }

    // The parts, where the words end.
    fn finish(self) -> Result<Parts<'a>, WordsFault>
        ensures parts { IfOk result (λ parts. ended self.entry ≡ Some parts) }
        ensures usage { result ≡ Err WordsFault.Usage → ended self.entry ≡ None }
    {
        match self.awaited {
            None => Ok(self.parts),
            Some(_) => Err(WordsFault::Usage),
        }
    }
}
