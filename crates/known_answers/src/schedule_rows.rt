//! Rows of schedules, in blocks: `case NAME`, `n N`, `rounds R`, then for one slot after the other
//! `slot ROWS -> MATCH USED FIRST LAST_ADDED SHARED`. From a line `by NAME` on the scheduler of this name
//! decides; before the first such line it is iSLIP.
use crate::slot_fields::{match_text, posted_rows, rounds_text, scheduler_named, shared_text};
use named_schedulers::NamedScheduler;
use pointer_state::Pointers;
use rotating_pick::{MAX_PORTS, MAX_ROUNDS};
use scheduler_names::SchedulerName;
use slot_match::Match;
use std::alloc::{AllocError, Global};
use test_vectors::{NoAnswer, Row, number, set_up_row};

/// The block that is being read.
#[derive(Drop)]
pub struct Block {
    scheduler: NamedScheduler,
    n: u32,
    rounds: u32,
    // The number of the slot that comes next.
    slot: u32,
    // The pointers, once the first slot came.
    pointers: Option<Pointers>,
}

impl Block {
    /// Before the first block.
    pub fn new() -> Block {
        Block {
            scheduler: NamedScheduler::new(SchedulerName::Islip),
            n: 0,
            rounds: 0,
            slot: 0,
            pointers: None,
        }
    }

    /// The row that a line is; None where it sets up the schedule.
    pub fn row(&mut self, alloc: Global, line: &str) -> Result<Option<Row>, AllocError> {
        let set_up = match line.split_once(' ') {
            Some(("by", name)) => self.set_scheduler(name),
            Some(("case", _)) => self.begin(),
            Some(("n", value)) => self.set_ports(value),
            Some(("rounds", value)) => self.set_rounds(value),
            Some(("slot", value)) => return Ok(Some(self.slot_row(alloc, value)?)),
            _ => Err(NoAnswer),
        };
        set_up_row(alloc, line, set_up)
    }

    fn set_scheduler(&mut self, name: &str) -> Result<(), NoAnswer> {
        self.scheduler = NamedScheduler::new(scheduler_named(name)?);
        Ok(())
    }

    fn begin(&mut self) -> Result<(), NoAnswer> {
        self.n = 0;
        self.rounds = 0;
        self.slot = 0;
        self.pointers = None;
        Ok(())
    }

    fn set_ports(&mut self, value: &str) -> Result<(), NoAnswer> {
        self.n = number(value)?;
        Ok(())
    }

    fn set_rounds(&mut self, value: &str) -> Result<(), NoAnswer> {
        self.rounds = number(value)?;
        Ok(())
    }

    fn slot_row(&mut self, alloc: Global, value: &str) -> Result<Row, AllocError> {
        match value.split_once(" -> ") {
            Some((rows, stated)) => Row::new(alloc, stated, self.answer(alloc, rows)),
            None => Row::unread(alloc, value),
        }
    }

    fn answer(&mut self, alloc: Global, rows: &str) -> Result<String, NoAnswer> {
        let mut pointers = match self.pointers.take() {
            Some(pointers) => pointers,
            None => first_pointers(self.n)?,
        };
        let scheduler = &mut self.scheduler;
        let answer = slot_text(
            alloc,
            scheduler,
            self.rounds,
            self.slot,
            rows,
            &mut pointers,
        )?;
        self.pointers = Some(pointers);
        self.slot = self.slot.saturating_add(1);
        Ok(answer)
    }
}

fn first_pointers(n: u32) -> Result<Pointers, NoAnswer> {
    if n == 0 || n > MAX_PORTS {
        return Err(NoAnswer);
    }
    Ok(Pointers::new(n))
}

fn slot_text(
    alloc: Global,
    scheduler: &mut NamedScheduler,
    rounds: u32,
    slot: u32,
    rows: &str,
    pointers: &mut Pointers,
) -> Result<String, NoAnswer> {
    let n = pointers.ports();
    if rounds == 0 || rounds > MAX_ROUNDS || n == 0 || n > MAX_PORTS {
        return Err(NoAnswer);
    }
    let rows = posted_rows(alloc, n, rows)?;
    let mut matched = Match::new(n);
    let numbers = scheduler.decide(n, rounds, slot, rows.as_slice(), pointers, &mut matched);
    let fed = match_text(alloc, &matched)?;
    let used = rounds_text(alloc, numbers)?;
    let shared = shared_text(alloc, pointers)?;
    Ok(format!(in alloc; "{fed} {used} {shared}")?)
}
