//! Rows of schedules in which a request waits as long as it can, in blocks: `case N ROUNDS SLOTS`, then
//! `pointers GRANT ACCEPT..`, the grant pointer of output 0 and the accept pointer of each input, and for
//! one slot after the other `rows SET..`, the outputs that each input posts at level 0.
//!
//! A case states how many slots the longest service takes, or the longest at line rate; under FIRM it
//! states some slots that are no more than that. A slot states that no queue has waited longer than since slot 0, which input 0 has
//! for output 0, and that it is served in the last slot alone.
ghost use Rattle.std.specs.Prelude.{◌≡◌, ◌<◌, ◌≤◌, length};
ghost use Rattle.pointer_state.specs.Places.{AreAtPorts};
ghost use Rattle.slot_match.specs.Rows.{AreWithin};
ghost use Rattle.slot_match.specs.Matches.{IsMatch};

use crate::slot_fields::{AT_ZERO, pointers};
use eslip_rounds::decide;
use firm_rounds::decide_firm;
use islip_rounds::RoundsUsed;
use pointer_state::{PointerTables, Pointers};
use rotating_pick::{Kind, MAX_PORTS, MAX_ROUNDS, Ports};
use service_bound::{MAX_NOTED, WaitMeter, longest_service, longest_service_at_line_rate};
use slot_match::{Fed, Match, Row, are_within};
use std::alloc::{AllocError, Global};
use test_vectors::{NoAnswer, Row as VectorRow, number, set_up_row};

/// What decides the slots, and which bound the cases state.
#[derive(Clone, Copy)]
pub enum Scheduler {
    Islip,
    IslipAtLineRate,
    Firm,
}

/// The block that is being read.
#[derive(Drop)]
pub struct Block {
    scheduler: Scheduler,
    n: u32,
    rounds: u32,
    slots: u32,
    // The slots so far, once the pointers came.
    course: Option<Course>,
}

// What the slots of a block left.
#[derive(Drop)]
struct Course {
    scheduler: Scheduler,
    // The number of the slot that comes next.
    slot: u32,
    pointers: Pointers,
    meter: WaitMeter,
    rows: Vec<Row>,
    matched: Match,
}

impl Block {
    /// Before the first block.
    pub fn new(scheduler: Scheduler) -> Block {
        Block {
            scheduler,
            n: 0,
            rounds: 0,
            slots: 0,
            course: None,
        }
    }

    /// The row that a line is; None where it sets up the pointers.
    pub fn row(&mut self, alloc: Global, line: &str) -> Result<Option<VectorRow>, AllocError> {
        match line.split_once(' ') {
            Some(("case", value)) => Ok(Some(self.case_row(alloc, value)?)),
            Some(("pointers", value)) => {
                let set_up = self.begin(alloc, value);
                set_up_row(alloc, line, set_up)
            }
            Some(("rows", value)) => Ok(Some(self.slot_row(alloc, value)?)),
            _ => Ok(Some(VectorRow::unread(alloc, line)?)),
        }
    }

    fn case_row(&mut self, alloc: Global, value: &str) -> Result<VectorRow, AllocError> {
        let numbers: Vec<&str> = value.split(' ').collect(alloc)?;
        let [n, rounds, slots] = numbers.as_slice() else {
            return VectorRow::unread(alloc, value);
        };
        VectorRow::new(alloc, slots, self.set_case(alloc, n, rounds, slots))
    }

    fn set_case(
        &mut self,
        alloc: Global,
        n: &str,
        rounds: &str,
        slots: &str,
    ) -> Result<String, NoAnswer> {
        self.course = None;
        self.n = number(n)?;
        self.rounds = number(rounds)?;
        self.slots = number(slots)?;
        if self.n == 0 || self.n > MAX_PORTS || self.rounds == 0 {
            return Err(NoAnswer);
        }
        let longest = match self.scheduler {
            Scheduler::Islip => longest_service(self.n, self.rounds),
            Scheduler::IslipAtLineRate => longest_service_at_line_rate(self.n, self.rounds),
            Scheduler::Firm => self.slots.min(self.n * self.n),
        };
        Ok(format!(in alloc; "{longest}")?)
    }

    fn begin(&mut self, alloc: Global, value: &str) -> Result<(), NoAnswer> {
        let n = self.n;
        if n == 0 || n > MAX_PORTS {
            return Err(NoAnswer);
        }
        let stated = stated_pointers(alloc, n, value)?;
        let Ok(meter) = WaitMeter::make(alloc, n) else {
            return Err(NoAnswer);
        };
        self.course = Some(Course {
            scheduler: self.scheduler,
            slot: 0,
            pointers: pointers(n, &stated)?,
            meter,
            rows: no_rows(alloc, n)?,
            matched: Match::new(n),
        });
        Ok(())
    }

    fn slot_row(&mut self, alloc: Global, value: &str) -> Result<VectorRow, AllocError> {
        let Some(mut course) = self.course.take() else {
            return VectorRow::unread(alloc, value);
        };
        let stated = self.stated(alloc, course.slot)?;
        let answer = course.slot_text(alloc, self.rounds, value);
        self.course = Some(course);
        VectorRow::new(alloc, stated.as_str(), answer)
    }

    // What the slot states: the longest wait after it, and whether the request is served.
    fn stated(&self, alloc: Global, slot: u32) -> Result<String, AllocError> {
        if slot.saturating_add(1) < self.slots {
            let waited = slot.saturating_add(1);
            format!(in alloc; "waits {waited}")
        } else {
            format!(in alloc; "served {slot}")
        }
    }
}

impl Scheduler {
    fn decide(
        self,
        n: u32,
        rounds: u32,
        slot: u32,
        rows: &[Row],
        p: &mut Pointers,
        out: &mut Match,
    ) -> RoundsUsed
        requires some { 0 < n }
        requires size { n ≤ MAX_PORTS }
        requires rounds_some { 0 < rounds }
        requires rounds_few { rounds ≤ MAX_ROUNDS }
        requires rows { AreWithin n rows.now }
        requires pointers { p.old.ports ≡ n }
        requires matched { length out.old ≡ n }
        ensures whole { IsMatch n out.new }
        ensures at_ports { AreAtPorts p.new }
    {
        match self {
            Scheduler::Islip | Scheduler::IslipAtLineRate => {
                decide(n, rounds, slot, rows, p, out)
            }
            Scheduler::Firm => decide_firm(n, rounds, slot, rows, p, out),
        }
    }
}

impl Course {
    // Decides the slot of these rows, which keep the ones before.
    fn slot_text(&mut self, alloc: Global, rounds: u32, value: &str) -> Result<String, NoAnswer> {
        let n = self.meter.ports();
        let rows = posted_rows(alloc, value)?;
        if n == 0 || rounds == 0 || rounds > MAX_ROUNDS || !are_within(n, rows.as_slice()) {
            return Err(NoAnswer);
        }
        if self.pointers.ports() != n
            || self.matched.ports() != n
            || !self.are_kept(rows.as_slice())
        {
            return Err(NoAnswer);
        }
        if self.meter.count() >= MAX_NOTED {
            return Err(NoAnswer);
        }
        let mut matched = Match::new(n);
        let _numbers = self.scheduler.decide(
            n,
            rounds,
            self.slot,
            rows.as_slice(),
            &mut self.pointers,
            &mut matched,
        );
        self.meter.note(rows.as_slice(), &matched);
        self.slot = self.slot.saturating_add(1);
        self.rows = rows;
        self.matched = matched;
        Ok(self.answer(alloc)?)
    }

    // Whether the rows keep what the slot before did not serve.
    fn are_kept(&self, rows: &[Row]) -> bool {
        for (i, (row, before)) in rows.iter().zip(self.rows.as_slice()).enumerate() {
            if i >= self.matched.ports() as usize {
                return false;
            }
            if !row.keeps(before, self.matched.served(i as u32)) {
                return false;
            }
        }
        true
    }

    fn answer(&self, alloc: Global) -> Result<String, AllocError> {
        let longest = self.meter.longest(0);
        if self.is_served() {
            format!(in alloc; "served {longest}")
        } else {
            format!(in alloc; "waits {longest}")
        }
    }

    // Whether input 0 was served with output 0, at level 0.
    fn is_served(&self) -> bool {
        if self.matched.ports() == 0 {
            return false;
        }
        match self.matched.fed(0) {
            Some(
                Fed {
                    input: 0,
                    level: 0,
                    kind: Kind::Uni,
                },
            ) => true,
            _ => false,
        }
    }
}

// `GRANT ACCEPT..`: all pointers but these are at port 0.
fn stated_pointers(alloc: Global, n: u32, value: &str) -> Result<PointerTables, NoAnswer> {
    let mut stated = AT_ZERO;
    let numbers: Vec<&str> = value.split(' ').collect(alloc)?;
    let [grant, accepts @ ..] = numbers.as_slice() else {
        return Err(NoAnswer);
    };
    if accepts.len() != n as usize {
        return Err(NoAnswer);
    }
    stated.grant[0][0] = number(grant)?;
    for (place, accept) in stated.accept[0].iter_mut().zip(accepts) {
        *place = number(accept)?;
    }
    Ok(stated)
}

// A row for each set of outputs, posted at level 0.
fn posted_rows(alloc: Global, value: &str) -> Result<Vec<Row>, NoAnswer> {
    let mut rows = Vec::new(alloc);
    for set in value.split(' ') {
        let mut row = Row::empty();
        row.uni[0] = Ports::from(number(set)?);
        rows.push(row)?;
    }
    Ok(rows)
}

// The rows of `n` inputs that post nothing.
fn no_rows(alloc: Global, n: u32) -> Result<Vec<Row>, AllocError> {
    let mut rows = Vec::new(alloc);
    for _ in 0..n {
        rows.push(Row::empty())?;
    }
    Ok(rows)
}
