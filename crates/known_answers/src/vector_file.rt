ghost use Rattle.std.specs.Prelude.{◌≡◌, true, IsSomeAnd};

use crate::longest_rows::Scheduler;
use crate::{
    arrival_rows, capture_rows, cell_rows, decision_rows, destination_rows, islip_rows,
    kernel_rows, longest_rows, message_rows, reassembly_rows, rotating_rows, schedule_rows,
    table_rows, wait_rows,
};
use std::alloc::{AllocError, Global};
use test_vectors::{Row, RowReader};

/// How the lines of a vector file are read, by the file's name.
#[derive(Drop)]
pub enum Reader {
    RotatingChoice,
    IslipSlots,
    Kernels,
    Arrivals,
    ArrivalsWithoutLimit,
    Cells,
    Reassembly(reassembly_rows::Block),
    Captures,
    Messages,
    Decisions(decision_rows::Block),
    Schedules(schedule_rows::Block),
    Tables(table_rows::Block),
    Destinations,
    Waits(wait_rows::Block),
    LongestWaits(longest_rows::Block),
    // No file of this name is known: no line of it can be read.
    Unknown,
}

impl RowReader for Reader {
    ghost use Rattle.known_answers.specs.declared.vector_file.Reader.TheVariants.{Unknown};
    ghost use Rattle.test_vectors.specs.Rows.{is_wrong};

    // Each line of a file of no known name is a wrong row.
    ghost reads = { λ old _ given _. old ≡ Unknown → IsSomeAnd given (λ row. is_wrong row ≡ true) };

    fn at(alloc: Global, name: &str) -> Reader {
        match name {
            "rotating_choice.txt" => Reader::RotatingChoice,
            "islip_one_round.txt" | "islip_rounds.txt" => Reader::IslipSlots,
            "islip_helpers.txt" => Reader::Kernels,
            "arrivals.txt" | "arrivals_at_line_rate.txt" => Reader::Arrivals,
            "arrivals_without_limit.txt" => Reader::ArrivalsWithoutLimit,
            "cells.txt" => Reader::Cells,
            "reassembly.txt" => Reader::Reassembly(reassembly_rows::Block::new(alloc)),
            "captures.txt" | "captures_changed.txt" => Reader::Captures,
            "messages.txt" => Reader::Messages,
            "decide_refuses.txt"
            | "decide_random.txt"
            | "decide_many_ports.txt"
            | "decide_by_scheduler.txt" => Reader::Decisions(decision_rows::Block::new(alloc)),
            "schedules.txt" | "schedules_by_scheduler.txt" => {
                Reader::Schedules(schedule_rows::Block::new())
            }
            "destinations.txt" => Reader::Destinations,
            "waits.txt" => Reader::Waits(wait_rows::Block::new()),
            "longest_waits.txt" => {
                Reader::LongestWaits(longest_rows::Block::new(Scheduler::Islip))
            }
            "longest_waits_at_line_rate.txt" => {
                Reader::LongestWaits(longest_rows::Block::new(Scheduler::IslipAtLineRate))
            }
            "longest_waits_firm.txt" => {
                Reader::LongestWaits(longest_rows::Block::new(Scheduler::Firm))
            }
            "tables.txt" => Reader::Tables(table_rows::Block::new(alloc)),
            _ => Reader::Unknown,
        }
    }

    fn row(&mut self, alloc: Global, line: &str) -> Result<Option<Row>, AllocError> {
        let row = match self {
            Reader::RotatingChoice => rotating_rows::row(alloc, line)?,
            Reader::IslipSlots => islip_rows::row(alloc, line)?,
            Reader::Kernels => kernel_rows::row(alloc, line)?,
            Reader::Arrivals => arrival_rows::row(alloc, line)?,
            Reader::ArrivalsWithoutLimit => arrival_rows::row_without_limit(alloc, line)?,
            Reader::Cells => cell_rows::row(alloc, line)?,
            Reader::Reassembly(block) => return block.row(alloc, line),
            Reader::Captures => capture_rows::row(alloc, line)?,
            Reader::Messages => message_rows::row(alloc, line)?,
            Reader::Decisions(block) => return block.row(alloc, line),
            Reader::Schedules(block) => return block.row(alloc, line),
            Reader::Tables(block) => return block.row(alloc, line),
            Reader::Destinations => destination_rows::row(alloc, line)?,
            Reader::Waits(block) => return block.row(alloc, line),
            Reader::LongestWaits(block) => return block.row(alloc, line),
            Reader::Unknown => Row::unread(alloc, line)?,
        };
        Ok(Some(row))
    }
}
