//! Rows of reassembly, in blocks: `case NAME`, `n N` and `size INPUT LEVEL KIND BYTES` set up the flows
//! of an output; then `put CELL -> INPUT LEVEL KIND MESSAGE` or `-> -`, `fit CELL` and `no_fit CELL`.

use crate::cell_rows::cell_bytes;
use crate::fields::kind;
use crate::texts::kind_letter;
use cell_cutter::{Cell, MAX_MESSAGE_BYTES};
use reassembly::{FLOWS_PER_INPUT, Reassembly};
use rotating_pick::Kind;
use std::alloc::{AllocError, Global};
use test_vectors::{NoAnswer, Row, byte, number, port_count, set_up_row, words};

/// The block that is being read.
#[derive(Drop)]
pub struct Block {
    // The ports, 0 before they are known.
    n: u32,
    // The greatest message of each flow.
    sizes: Vec<u32>,
    // The flows, once a cell came.
    flows: Option<Reassembly>,
}

impl Block {
    /// Before the first block.
    pub fn new(alloc: Global) -> Block {
        Block {
            n: 0,
            sizes: Vec::new(alloc),
            flows: None,
        }
    }

    /// The row that a line is; None where it sets up the flows.
    pub fn row(&mut self, alloc: Global, line: &str) -> Result<Option<Row>, AllocError> {
        let Some((key, value)) = line.split_once(' ') else {
            return Ok(Some(Row::unread(alloc, line)?));
        };
        let set_up = match key {
            "case" => self.begin(alloc),
            "n" => self.set_ports(alloc, value),
            "size" => self.set_size(alloc, value),
            _ => return Ok(Some(self.asked(alloc, key, value)?)),
        };
        set_up_row(alloc, line, set_up)
    }

    fn begin(&mut self, alloc: Global) -> Result<(), NoAnswer> {
        self.n = 0;
        self.sizes = Vec::new(alloc);
        self.flows = None;
        Ok(())
    }

    fn set_ports(&mut self, alloc: Global, value: &str) -> Result<(), NoAnswer> {
        let n = port_count(value)?;
        self.n = n;
        self.sizes = vec![in alloc; 0; FLOWS_PER_INPUT * n as usize]?;
        Ok(())
    }

    fn set_size(&mut self, alloc: Global, value: &str) -> Result<(), NoAnswer> {
        let words = words(alloc, value)?;
        let [input, level, kind_word, size] = words.as_slice() else {
            return Err(NoAnswer);
        };
        let place = place_of(byte(input)?, byte(level)?, kind(kind_word)?);
        let size = number(size)?;
        match self.sizes.get_mut(place) {
            Some(entry) => {
                *entry = size;
                Ok(())
            }
            None => Err(NoAnswer),
        }
    }

    fn asked(&mut self, alloc: Global, key: &str, value: &str) -> Result<Row, AllocError> {
        match (key, value.split_once(" -> ")) {
            ("put", Some((cell, stated))) => {
                Row::new(alloc, stated, self.answer_put(alloc, cell))
            }
            ("fit", None) => Row::new(alloc, "true", self.answer_fits(alloc, value)),
            ("no_fit", None) => Row::new(alloc, "false", self.answer_fits(alloc, value)),
            _ => Row::unread(alloc, value),
        }
    }

    fn answer_fits(&mut self, alloc: Global, cell: &str) -> Result<String, NoAnswer> {
        let cell = read_cell(cell)?;
        let flows = self.flows(alloc)?;
        let fits = flows.fits(&cell);
        Ok(format!(in alloc; "{fits}")?)
    }

    fn answer_put(&mut self, alloc: Global, cell: &str) -> Result<String, NoAnswer> {
        let cell = read_cell(cell)?;
        let flows = self.flows(alloc)?;
        put_text(alloc, flows, &cell)
    }

    // The flows, made with the first cell.
    fn flows(&mut self, alloc: Global) -> Result<&mut Reassembly, NoAnswer> {
        if self.flows.is_none() {
            self.flows = Some(made(alloc, self.n, self.sizes.as_slice())?);
        }
        match &mut self.flows {
            Some(flows) => Ok(flows),
            None => Err(NoAnswer),
        }
    }
}

// The place of a flow among all.
fn place_of(input: u8, level: u8, kind: Kind) -> usize {
    let kind = match kind {
        Kind::Uni => 0,
        Kind::Multi => 1,
    };
    FLOWS_PER_INPUT * usize::from(input) + 2 * usize::from(level) + kind
}

fn made(alloc: Global, n: u32, sizes: &[u32]) -> Result<Reassembly, NoAnswer> {
    let fitting = sizes.iter().all(|size| *size as usize <= MAX_MESSAGE_BYTES);
    if n == 0 || n > 64 || sizes.len() != FLOWS_PER_INPUT * n as usize || !fitting {
        return Err(NoAnswer);
    }
    match Reassembly::make(alloc, n, sizes) {
        Ok(flows) => Ok(flows),
        Err(_) => Err(NoAnswer),
    }
}

fn read_cell(text: &str) -> Result<Cell, NoAnswer> {
    Cell::from_bytes(&cell_bytes(text)?).ok_or(NoAnswer)
}

// Puts a cell, and writes the message that is whole with it, `-` where none is.
fn put_text(alloc: Global, flows: &mut Reassembly, cell: &Cell) -> Result<String, NoAnswer> {
    if !flows.fits(cell) {
        return Err(NoAnswer);
    }
    let Some(done) = flows.put(cell) else {
        return Ok(String::from_str(alloc, "-")?);
    };
    let message = hex::encode(alloc, done.message)?;
    let input = done.input;
    let level = done.level;
    let kind = kind_letter(done.kind);
    Ok(format!(in alloc; "{input} {level} {kind} {message}")?)
}
