//! Rows of table texts, in blocks: `case NAME`, `n N`, `repeat K` and `text "..."` set up the text; then
//! `answer ok LINES` or `answer FAULT NUMBERS`, and `route ADDRESS FAN LEVEL` or `route ADDRESS none`.
use forward_table::{Table, TableFault, read_table};
use rotating_pick::{MAX_FILE_BYTES, MAX_PORTS};
use std::alloc::{AllocError, Global};
use test_vectors::{NoAnswer, Row, TableText, address, set_up_row};

/// The block that is being read.
#[derive(Drop)]
pub struct Block {
    given: TableText,
    // The table, once its answer was asked.
    table: Option<Table>,
}

impl Block {
    /// Before the first block.
    pub fn new(alloc: Global) -> Block {
        Block {
            given: TableText::new(alloc),
            table: None,
        }
    }

    /// The row that a line is; None where it sets up the text.
    pub fn row(&mut self, alloc: Global, line: &str) -> Result<Option<Row>, AllocError> {
        if let Some(set_up) = self.given.set_up(alloc, line) {
            self.table = None;
            return set_up_row(alloc, line, set_up);
        }
        let row = match line.split_once(' ') {
            Some(("answer", value)) => Row::new(alloc, value, self.answer(alloc))?,
            Some(("route", value)) => self.route_row(alloc, value)?,
            _ => Row::unread(alloc, line)?,
        };
        Ok(Some(row))
    }

    fn answer(&mut self, alloc: Global) -> Result<String, NoAnswer> {
        let n = self.given.ports;
        let text = self.given.text.as_slice();
        if n == 0 || n > MAX_PORTS || text.len() > MAX_FILE_BYTES {
            return Err(NoAnswer);
        }
        match read_table(alloc, text, n) {
            Ok(table) => {
                let lines = table.line_count();
                self.table = Some(table);
                Ok(format!(in alloc; "ok {lines}")?)
            }
            Err(fault) => fault_text(alloc, fault),
        }
    }

    fn route_row(&mut self, alloc: Global, value: &str) -> Result<Row, AllocError> {
        match value.split_once(' ') {
            Some((address, stated)) => Row::new(alloc, stated, self.route(alloc, address)),
            None => Row::unread(alloc, value),
        }
    }

    fn route(&self, alloc: Global, address_text: &str) -> Result<String, NoAnswer> {
        let Some(table) = &self.table else {
            return Err(NoAnswer);
        };
        match table.route(address(alloc, address_text)?) {
            Some(route) => {
                let fan = route.fan;
                let level = route.level;
                Ok(format!(in alloc; "{fan:#x} {level}")?)
            }
            None => Ok(String::from_str(alloc, "none")?),
        }
    }
}

fn fault_text(alloc: Global, fault: TableFault) -> Result<String, NoAnswer> {
    let text = match fault {
        TableFault::BadLine { line } => format!(in alloc; "bad_line {line}"),
        TableFault::HostBits { line } => format!(in alloc; "host_bits {line}"),
        TableFault::BadPort { line, port } => format!(in alloc; "bad_port {line} {port}"),
        TableFault::BadLevel { line } => format!(in alloc; "bad_level {line}"),
        TableFault::Repeated { line, first } => format!(in alloc; "repeated {line} {first}"),
        TableFault::TooManyLines { count } => format!(in alloc; "too_many_lines {count}"),
        TableFault::OutOfMemory => return Err(NoAnswer),
    };
    Ok(text?)
}
