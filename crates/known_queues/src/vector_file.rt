ghost use Rattle.std.specs.Prelude.{◌≡◌, true, IsSomeAnd};

use crate::{bank_rows, fan_queue_rows};
use std::alloc::{AllocError, Global};
use test_vectors::{Row, RowReader};

/// How the lines of a vector file are read, by the file's name.
#[derive(Drop)]
pub enum Reader {
    Banks(bank_rows::Block),
    FanQueues(fan_queue_rows::Block),
    // No file of this name is known: no line of it can be read.
    Unknown,
}

impl RowReader for Reader {
    ghost use Rattle.known_queues.specs.declared.vector_file.Reader.TheVariants.{Unknown};
    ghost use Rattle.test_vectors.specs.Rows.{is_wrong};

    // Each line of a file of no known name is a wrong row.
    ghost reads = { λ old _ given _. old ≡ Unknown → IsSomeAnd given (λ row. is_wrong row ≡ true) };

    fn at(alloc: Global, name: &str) -> Reader {
        match name {
            "banks.txt" => Reader::Banks(bank_rows::Block::new(alloc)),
            "fan_queues.txt" => Reader::FanQueues(fan_queue_rows::Block::new()),
            _ => Reader::Unknown,
        }
    }

    fn row(&mut self, alloc: Global, line: &str) -> Result<Option<Row>, AllocError> {
        match self {
            Reader::Banks(block) => block.row(alloc, line),
            Reader::FanQueues(block) => block.row(alloc, line),
            Reader::Unknown => Ok(Some(Row::unread(alloc, line)?)),
        }
    }
}
