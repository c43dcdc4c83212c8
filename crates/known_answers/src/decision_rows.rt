//! Rows of decisions of a slot, in blocks: `case`, `n`, `rounds`, `slot`, `rows`, `grant`, `accept` and
//! `shared` set up the slot; then `match`, `numbers`, `maximal`, `grant_after`, `accept_after` and
//! `shared_after` state what it gives, and `refused` which unicast grants of the first round were not
//! accepted. From a line `by NAME` on the scheduler of this name decides; before the first such line it is
//! iSLIP.
ghost use Rattle.std.specs.Prelude.{◌≡◌, ◌<◌, ◌≤◌};

use crate::fields::numbers;
use crate::slot_fields::{
    AT_ZERO, level_tables, level_tables_text, match_text, pointers, posted_rows, refused_text,
    rounds_text, scheduler_named,
};
use crate::texts::numbers_text;
use eslip_rounds::{Scratch, decide_in, decide_with_refused};
use firm_rounds::decide_firm;
use islip_rounds::RoundsUsed;
use pointer_state::PointerTables;
use rotating_pick::{LEVEL_COUNT, MAX_PORTS, MAX_ROUNDS};
use rrm_rounds::decide_rrm;
use scheduler_names::SchedulerName;
use slot_match::{Match, are_within};
use std::alloc::{AllocError, Global};
use test_vectors::{NoAnswer, Row, number, set_up_row};

/// The block that is being read.
#[derive(Drop)]
pub struct Block {
    scheduler: SchedulerName,
    // What all slots are decided in.
    scratch: Scratch,
    n: u32,
    rounds: u32,
    slot: u32,
    rows: Vec<slot_match::Row>,
    stated: PointerTables,
    // What the slot gave, once it was asked.
    decided: Option<Decided>,
}

// What a slot gives.
#[derive(Drop)]
struct Decided {
    matched: Match,
    numbers: RoundsUsed,
    pointers: PointerTables,
}

impl Block {
    /// Before the first block.
    pub fn new(alloc: Global) -> Block {
        Block {
            scheduler: SchedulerName::Islip,
            scratch: Scratch::new(),
            n: 0,
            rounds: 0,
            slot: 0,
            rows: Vec::new(alloc),
            stated: AT_ZERO,
            decided: None,
        }
    }

    /// The row that a line is; None where it sets up the slot.
    pub fn row(&mut self, alloc: Global, line: &str) -> Result<Option<Row>, AllocError> {
        let Some((key, value)) = line.split_once(' ') else {
            return Ok(Some(Row::unread(alloc, line)?));
        };
        match key {
            "by" | "case" | "n" | "rounds" | "slot" | "rows" | "grant" | "accept" | "shared" => {
                let set_up = self.set(alloc, key, value);
                set_up_row(alloc, line, set_up)
            }
            _ => Ok(Some(Row::new(alloc, value, self.answer(alloc, key))?)),
        }
    }

    fn set(&mut self, alloc: Global, key: &str, value: &str) -> Result<(), NoAnswer> {
        self.decided = None;
        match key {
            "by" => self.scheduler = scheduler_named(value)?,
            "case" => self.n = 0,
            "n" => self.n = number(value)?,
            "rounds" => self.rounds = number(value)?,
            "slot" => self.slot = number(value)?,
            "rows" => self.rows = posted_rows(alloc, self.n, value)?,
            _ => return self.set_pointers(alloc, key, value),
        }
        Ok(())
    }

    fn set_pointers(&mut self, alloc: Global, key: &str, value: &str) -> Result<(), NoAnswer> {
        let n = self.n;
        if n == 0 || n > MAX_PORTS {
            return Err(NoAnswer);
        }
        match key {
            "grant" => self.stated.grant = level_tables(alloc, n, value)?,
            "accept" => self.stated.accept = level_tables(alloc, n, value)?,
            _ => self.stated.shared = four(numbers(alloc, value)?.as_slice())?,
        }
        Ok(())
    }

    fn answer(&mut self, alloc: Global, key: &str) -> Result<String, NoAnswer> {
        if key == "refused" {
            return self.refused(alloc);
        }
        if self.decided.is_none() {
            self.decided = Some(self.decide()?);
        }
        match &self.decided {
            Some(decided) => decided.answer(alloc, key, self.rows.as_slice()),
            None => Err(NoAnswer),
        }
    }

    // Decides the slot by the scheduler of the name.
    fn decide(&mut self) -> Result<Decided, NoAnswer> {
        let (n, rounds, slot) = (self.n, self.rounds, self.slot);
        let rows = self.rows.as_slice();
        let p = &mut pointers(n, &self.stated)?;
        if n == 0 || n > MAX_PORTS || rounds == 0 || rounds > MAX_ROUNDS || !are_within(n, rows) {
            return Err(NoAnswer);
        }
        let mut matched = Match::new(n);
        let out = &mut matched;
        let numbers = match self.scheduler {
            SchedulerName::Islip => decide_in(n, rounds, slot, rows, p, out, &mut self.scratch),
            SchedulerName::Firm => decide_firm(n, rounds, slot, rows, p, out),
            SchedulerName::Rrm => decide_rrm(n, rounds, slot, rows, p, out),
        };
        let mut after = AT_ZERO;
        p.put_tables(&mut after);
        Ok(Decided {
            matched,
            numbers,
            pointers: after,
        })
    }

    // The unicast grants of the first round that were not accepted, which are the same by each scheduler.
    fn refused(&self, alloc: Global) -> Result<String, NoAnswer> {
        let n = self.n;
        let rows = self.rows.as_slice();
        let mut p = pointers(n, &self.stated)?;
        if n == 0
            || n > MAX_PORTS
            || self.rounds == 0
            || self.rounds > MAX_ROUNDS
            || !are_within(n, rows)
        {
            return Err(NoAnswer);
        }
        let mut matched = Match::new(n);
        let (_, refused) = decide_with_refused(
            n,
            self.rounds,
            self.slot,
            rows,
            &mut p,
            &mut matched,
            &mut Scratch::new(),
        );
        Ok(refused_text(alloc, &refused)?)
    }
}

impl Decided {
    fn answer(
        &self,
        alloc: Global,
        key: &str,
        rows: &[slot_match::Row],
    ) -> Result<String, NoAnswer> {
        let n = self.matched.ports();
        match key {
            "match" => Ok(match_text(alloc, &self.matched)?),
            "numbers" => Ok(rounds_text(alloc, self.numbers)?),
            "maximal" => maximal_text(alloc, &self.matched, rows),
            "grant_after" => Ok(level_tables_text(alloc, n, &self.pointers.grant)?),
            "accept_after" => Ok(level_tables_text(alloc, n, &self.pointers.accept)?),
            "shared_after" => Ok(numbers_text(alloc, &self.pointers.shared)?),
            _ => Err(NoAnswer),
        }
    }
}

fn maximal_text(
    alloc: Global,
    matched: &Match,
    rows: &[slot_match::Row],
) -> Result<String, NoAnswer> {
    if !are_within(matched.ports(), rows) {
        return Err(NoAnswer);
    }
    let answer = if matched.is_maximal(rows) {
        "yes"
    } else {
        "no"
    };
    Ok(String::from_str(alloc, answer)?)
}

fn four(numbers: &[u32]) -> Result<[u32; LEVEL_COUNT], NoAnswer> {
    match numbers {
        [first, second, third, fourth] => Ok([*first, *second, *third, *fourth]),
        _ => Err(NoAnswer),
    }
}
