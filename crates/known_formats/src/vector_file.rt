use crate::{journal_rows, text_rows, word_rows};
use std::alloc::{AllocError, Global};
use test_vectors::{Row, RowReader};

/// How the lines of a vector file are read, by the file's name.
#[derive(Drop)]
pub enum Reader {
    Words,
    Texts(text_rows::Block),
    Journals(journal_rows::Block),
    // No file of this name is known: no line of it can be read.
    Unknown,
}

impl RowReader for Reader {
    ghost use Rattle.known_formats.specs.Formats.{Reads};

    ghost reads = { λ old line given _. Reads old line given };

    fn at(alloc: Global, name: &str) -> Reader {
        match name {
            "words.txt"
            | "measure_words.txt"
            | "line_rate_words.txt"
            | "scheduler_words.txt"
            | "long_words.txt" => Reader::Words,
            "texts.txt" => Reader::Texts(text_rows::Block::new(alloc)),
            "journals.txt" | "journals_by_scheduler.txt" => {
                Reader::Journals(journal_rows::Block::new(alloc))
            }
            _ => Reader::Unknown,
        }
    }

    fn row(&mut self, alloc: Global, line: &str) -> Result<Option<Row>, AllocError> {
        match self {
            Reader::Words => Ok(Some(word_rows::row(alloc, line)?)),
            Reader::Texts(block) => block.row(alloc, line),
            Reader::Journals(block) => block.row(alloc, line),
            Reader::Unknown => Ok(Some(Row::unread(alloc, line)?)),
        }
    }
}
