ghost use Rattle.std.specs.Prelude.{◌≡◌, true, IsSomeAnd};

use crate::{delay_rows, queue_rows, traffic_rows};
use std::alloc::{AllocError, Global};
use test_vectors::{Row, RowReader};

/// How the lines of a vector file are read, by the file's name.
#[derive(Drop)]
pub enum Reader {
    Traffic,
    Queues(queue_rows::Block),
    Delays,
    // No file of this name is known: no line of it can be read.
    Unknown,
}

impl RowReader for Reader {
    ghost use Rattle.known_simulations.specs.declared.vector_file.Reader.TheVariants.{Unknown};
    ghost use Rattle.test_vectors.specs.Rows.{is_wrong};

    // Each line of a file of no known name is a wrong row.
    ghost reads = { λ old _ given _. old ≡ Unknown → IsSomeAnd given (λ row. is_wrong row ≡ true) };

    fn at(_alloc: Global, name: &str) -> Reader {
        match name {
            "traffic.txt" => Reader::Traffic,
            "queues.txt" => Reader::Queues(queue_rows::Block::new()),
            "delays.txt" => Reader::Delays,
            _ => Reader::Unknown,
        }
    }

    fn row(&mut self, alloc: Global, line: &str) -> Result<Option<Row>, AllocError> {
        match self {
            Reader::Traffic => Ok(Some(traffic_rows::row(alloc, line)?)),
            Reader::Queues(block) => block.row(alloc, line),
            Reader::Delays => Ok(Some(delay_rows::row(alloc, line)?)),
            Reader::Unknown => Ok(Some(Row::unread(alloc, line)?)),
        }
    }
}
