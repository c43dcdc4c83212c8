ghost use Rattle.std.specs.Prelude.{◌≡◌};
ghost use Rattle.command_words.specs.Words.{behind_dashes, word_of};
ghost use Rattle.command_words.specs.WordSteps.{word_value};

/// What a word is where options may stand.
#[derive(Clone, Copy)]
pub(crate) enum Word<'a> {
    /// `--`.
    Closing,
    /// An option or a flag: its name, and the value behind its first `=`.
    Dashed(&'a str, Option<&'a str>),
    /// A name, or the value of an option.
    Plain,
    /// Another word that begins with `-`.
    Refused,
}

/// What the word is.
pub(crate) fn word_of(text: &str) -> Word<'_>
    ensures { word_value result ≡ word_of text.now }
{
    match text.strip_prefix("--") {
        Some(rest) => behind_dashes(rest),
        None if text == "-" || !text.starts_with('-') => Word::Plain,
        None => Word::Refused,
    }
}

// What the word is, by what follows its `--`.
fn behind_dashes(text: &str) -> Word<'_>
    ensures { word_value result ≡ behind_dashes text.now }
{
    if text.is_empty() {
        return Word::Closing;
    }
    match text.split_once('=') {
        Some((name, value)) => Word::Dashed(name, Some(value)),
        None => Word::Dashed(text, None),
    }
}
