//! Rows of lists of words: `"WORD" "WORD" => ANSWER`, with `\"`, `\\`, `\n` and `\t` in a word as in
//! Rust. What is answered is `usage`, or the command with its settings.
use crate::job_texts::job_text;
use std::alloc::{AllocError, Global};
use switch_words::{WordsFault, read_words};
use test_vectors::{NoAnswer, Row};

const USAGE: &str = "usage";

// Begins a line of which the words are a job only with the commands `check` and `firm` and with the
// flags `--journal` and `--reference`.
const LATER: &str = "? ";

// Where a letter of a list of words stands.
#[derive(Clone, Copy)]
enum Place {
    Between,
    Quoted,
    Escaped,
}

/// The row that a line is.
pub fn row(alloc: Global, line: &str) -> Result<Row, AllocError> {
    let line = line.strip_prefix(LATER).unwrap_or(line);
    match line.split_once("=> ") {
        Some((words, stated)) => Row::new(alloc, stated, answer(alloc, words)),
        None => Row::unread(alloc, line),
    }
}

fn answer(alloc: Global, words: &str) -> Result<String, NoAnswer> {
    let words = quoted_words(alloc, words)?;
    match read_words(alloc, words.as_slice()) {
        Ok(job) => Ok(job_text(alloc, &job)?),
        Err(WordsFault::Usage) => Ok(String::from_str(alloc, USAGE)?),
        Err(WordsFault::OutOfMemory) => Err(NoAnswer),
    }
}

// The words of a list, each in quotes.
fn quoted_words(alloc: Global, text: &str) -> Result<Vec<String>, NoAnswer> {
    let mut words = Vec::new(alloc);
    let mut word = String::new(alloc);
    let mut place = Place::Between;
    for letter in text.chars() {
        place = match (place, letter) {
            (Place::Between, ' ') => Place::Between,
            (Place::Between, '"') => Place::Quoted,
            (Place::Between, _) => return Err(NoAnswer),
            (Place::Quoted, '"') => {
                words.push(word)?;
                word = String::new(alloc);
                Place::Between
            }
            (Place::Quoted, '\\') => Place::Escaped,
            (Place::Quoted, _) => {
                word.push(letter)?;
                Place::Quoted
            }
            (Place::Escaped, _) => {
                word.push(meant(letter)?)?;
                Place::Quoted
            }
        };
    }
    match place {
        Place::Between => Ok(words),
        _ => Err(NoAnswer),
    }
}

// The letter that an escape means.
fn meant(letter: char) -> Result<char, NoAnswer> {
    match letter {
        'n' => Ok('\n'),
        't' => Ok('\t'),
        '"' | '\\' => Ok(letter),
        _ => Err(NoAnswer),
    }
}
