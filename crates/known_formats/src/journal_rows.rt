//! Rows of journal files: a line in hexadecimal is the bytes of a file, `-` for none, and each row
//! `> ANSWER` states the answer to the file before it. From a line `by NAME` on the scheduler of this name
//! decides; before the first such line it is iSLIP.
ghost use Rattle.std.specs.Prelude.{IfOk};
ghost use Rattle.known_formats.specs.Formats.{StatesAnswer};

use journal_check::{JournalFault, MAX_JOURNAL_BYTES, Reason, Verdict, check_journal_by};
use rotating_pick::LEVEL_COUNT;
use scheduler_names::SchedulerName;
use std::alloc::{AllocError, Global};
use test_vectors::{NoAnswer, Row, set_up_row};

/// The journal file that is asked about.
#[derive(Drop)]
pub struct Block {
    scheduler: SchedulerName,
    bytes: Vec<u8>,
}

impl Block {
    /// Before the first file.
    pub fn new(alloc: Global) -> Block {
        Block {
            scheduler: SchedulerName::Islip,
            bytes: Vec::new(alloc),
        }
    }

    /// The row that a line is; None where it sets up the file or its scheduler.
    pub fn row(&mut self, alloc: Global, line: &str) -> Result<Option<Row>, AllocError>
        ensures { IfOk result (StatesAnswer line.now) }
    {
        if let Some(stated) = line.strip_prefix("> ") {
            let answer = answer(alloc, self.scheduler, self.bytes.as_slice());
            return Ok(Some(Row::new(alloc, stated, answer)?));
        }
        let set_up = match line.strip_prefix("by ") {
            Some(name) => self.set_scheduler(name),
            None => self.set_bytes(alloc, line),
        };
        set_up_row(alloc, line, set_up)
    }

    fn set_scheduler(&mut self, name: &str) -> Result<(), NoAnswer> {
        match SchedulerName::named(name) {
            Some(scheduler) => {
                self.scheduler = scheduler;
                Ok(())
            }
            None => Err(NoAnswer),
        }
    }

    fn set_bytes(&mut self, alloc: Global, line: &str) -> Result<(), NoAnswer> {
        if line == "-" {
            self.bytes = Vec::new(alloc);
            return Ok(());
        }
        match hex::decode(alloc, line) {
            Ok(bytes) => {
                self.bytes = bytes;
                Ok(())
            }
            Err(_) => Err(NoAnswer),
        }
    }
}

// The answer to a file by this scheduler.
fn answer(alloc: Global, scheduler: SchedulerName, bytes: &[u8]) -> Result<String, NoAnswer> {
    if bytes.len() > MAX_JOURNAL_BYTES {
        return Err(NoAnswer);
    }
    let text = match check_journal_by(alloc, scheduler, bytes) {
        Ok(Verdict::Yes { slots, longest }) => yes_text(alloc, slots, longest),
        Ok(Verdict::No { slot, reason }) => no_text(alloc, slot, reason),
        Err(JournalFault::Bad { at }) => format!(in alloc; "bad at {at}"),
        Err(JournalFault::OutOfMemory) => return Err(NoAnswer),
    };
    Ok(text?)
}

fn yes_text(alloc: Global, slots: u32, longest: [u32; LEVEL_COUNT]) -> Result<String, AllocError> {
    let [a, b, c, d] = longest;
    format!(in alloc; "yes, {slots} slots, longest {a} {b} {c} {d}")
}

fn no_text(alloc: Global, slot: u32, reason: Reason) -> Result<String, AllocError> {
    match reason {
        Reason::AfterEnd => format!(in alloc; "no: slot {slot} after end"),
        Reason::More { card } => format!(in alloc; "no: slot {slot} more of card {card}"),
        Reason::Keeps { card } => format!(in alloc; "no: slot {slot} keeps of card {card}"),
        Reason::Output { output } => format!(in alloc; "no: slot {slot} output {output}"),
        Reason::NoEnd => format!(in alloc; "no: slot {slot} no end"),
    }
}
