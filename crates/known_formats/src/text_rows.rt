//! Rows of the texts of a run, in blocks. `case NAME` begins a block; `summary ..`, `outputs ..` for a
//! report, and `slot_lines` with `slot USED FIRST MATCH` for each slot say what the text tells of; `text`
//! makes it, and `journal` one whose only line is the bytes of the journal of these slots. After that each
//! row `> LINE` states its next line.
ghost use Rattle.std.specs.Prelude.{IfOk};
ghost use Rattle.known_formats.specs.Formats.{StatesAnswer};

use crate::fields::{outputs, summary};
use crate::slots::Slots;
use journal_check::laws::finished_journals_are_lawful;
use journal_check::{MAX_JOURNAL_BYTES, journal_bytes, journal_len};
use rotating_pick::{MAX_PORTS, OutOfMemory};
use slot_report::{OutLine, Summary, report_text, summary_text};
use std::alloc::{AllocError, Global};
use test_vectors::{NoAnswer, Row, set_up_row};

/// The block that is being read.
#[derive(Drop)]
pub struct Block {
    summary: Option<Summary>,
    // None where only the summary is asked.
    outputs: Option<Vec<OutLine>>,
    // None where the report has no lines of slots.
    slots: Option<Slots>,
    text: String,
    // How many lines of the text were stated.
    stated: usize,
}

impl Block {
    /// Before the first block.
    pub fn new(alloc: Global) -> Block {
        Block {
            summary: None,
            outputs: None,
            slots: None,
            text: String::new(alloc),
            stated: 0,
        }
    }

    /// The row that a line is; None where it sets up the text.
    pub fn row(&mut self, alloc: Global, line: &str) -> Result<Option<Row>, AllocError>
        ensures { IfOk result (StatesAnswer line.now) }
    {
        if let Some(stated) = line.strip_prefix("> ") {
            let answer = self.next_line(alloc);
            return Ok(Some(Row::new(alloc, stated, answer)?));
        }
        let set_up = self.set_up(alloc, line);
        set_up_row(alloc, line, set_up)
    }

    fn set_up(&mut self, alloc: Global, line: &str) -> Result<(), NoAnswer> {
        let (key, value) = line.split_once(' ').unwrap_or((line, ""));
        match key {
            "case" => self.begin(alloc)?,
            "summary" => self.summary = Some(summary(alloc, value)?),
            "outputs" => self.outputs = Some(outputs(alloc, value)?),
            "slot_lines" => {
                let summary = self.summary.ok_or(NoAnswer)?;
                self.slots = Some(Slots::new(alloc, summary.ports, summary.rounds)?);
            }
            "slot" => self.decide(alloc, value)?,
            "text" => self.text = self.make_text(alloc)?,
            "journal" => self.text = self.make_journal(alloc)?,
            _ => return Err(NoAnswer),
        }
        Ok(())
    }

    // Begins the next block. Each line of the text before it was stated.
    fn begin(&mut self, alloc: Global) -> Result<(), NoAnswer> {
        let is_whole = self.text.as_str().lines().nth(self.stated).is_none();
        *self = Block::new(alloc);
        if is_whole { Ok(()) } else { Err(NoAnswer) }
    }

    // Decides a slot with the match of this row. Its numbers are stated by the line of the slot.
    fn decide(&mut self, alloc: Global, row: &str) -> Result<(), NoAnswer> {
        let (_numbers, matched) = row.rsplit_once(' ').ok_or(NoAnswer)?;
        match &mut self.slots {
            Some(slots) => slots.decide(alloc, matched),
            None => Err(NoAnswer),
        }
    }

    fn make_text(&mut self, alloc: Global) -> Result<String, NoAnswer> {
        let summary = self.summary.ok_or(NoAnswer)?;
        let Some(outputs) = &self.outputs else {
            return made(summary_text(alloc, &summary));
        };
        if outputs.len() > MAX_PORTS as usize {
            return Err(NoAnswer);
        }
        let journal = match self.slots.take() {
            Some(slots) => Some(slots.journal()),
            None => None,
        };
        made(report_text(alloc, &summary, outputs, "", journal.as_ref()))
    }

    // The bytes of the journal of the slots, in hexadecimal. Its law goes over the slots, too.
    fn make_journal(&mut self, alloc: Global) -> Result<String, NoAnswer> {
        let journal = self.slots.take().ok_or(NoAnswer)?.journal();
        finished_journals_are_lawful(&journal);
        let len = journal_len(&journal);
        if journal.slots() == 0 || len > MAX_JOURNAL_BYTES as u64 {
            return Err(NoAnswer);
        }
        let Ok(bytes) = journal_bytes(alloc, &journal) else {
            return Err(NoAnswer);
        };
        if bytes.len() as u64 != len {
            return Err(NoAnswer);
        }
        let mut line = hex::encode(alloc, bytes.as_slice())?;
        line.push('\n')?;
        Ok(line)
    }

    // The next line of the text, which a line feed ends.
    fn next_line(&mut self, alloc: Global) -> Result<String, NoAnswer> {
        let line = self.text.as_str().split_inclusive('\n').nth(self.stated);
        let line = line.ok_or(NoAnswer)?.strip_suffix('\n').ok_or(NoAnswer)?;
        let line = String::from_str(alloc, line)?;
        self.stated = self.stated.saturating_add(1);
        Ok(line)
    }
}

// A text, unless memory ran out.
fn made(text: Result<String, OutOfMemory>) -> Result<String, NoAnswer> {
    match text {
        Ok(text) => Ok(text),
        Err(_) => Err(NoAnswer),
    }
}
