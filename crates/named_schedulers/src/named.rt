ghost use Rattle.std.specs.Prelude.{◌≡◌};
ghost use Rattle.eslip_rounds.specs.Calls.{CanDecide, IsDecidedBy};
ghost use Rattle.named_schedulers.specs.Named.{decision_named, moves_named};

use eslip_rounds::{Columns, Scratch, decide_in, decide_over};
use firm_rounds::{decide_firm_in, decide_firm_over};
use islip_rounds::RoundsUsed;
use pointer_state::Pointers;
use rrm_rounds::{decide_rrm_in, decide_rrm_over};
use scheduler_names::SchedulerName;
use slot_match::{Match, Row};
use std::marker::Model;

/// A scheduler with what it works in from slot to slot. Contracts see it as its name.
#[derive(Drop)]
pub struct NamedScheduler {
    name: SchedulerName,
    scratch: Scratch,
}

impl Model for NamedScheduler {
    ghost use Rattle.scheduler_names.specs.declared.names.SchedulerName.{SchedulerName};

    ghost Value = { SchedulerName };

    ghost view = { λ s. s.name };
}

impl NamedScheduler {
    /// The scheduler of this name. Takes no memory.
    pub fn new(name: SchedulerName) -> NamedScheduler
        ensures { result ≡ name }
    {
        NamedScheduler {
            name,
            scratch: Scratch::new(),
        }
    }

    /// Decides slot number `slot` of a switch of `n` ports in `rounds` rounds, each from 1 to 64: sets `out` to the
    /// match, moves the pointers and answers how the rounds were used. There are `n` rows within `n`, and `p` and
    /// `out` are for `n` ports. Takes no memory.
    pub fn decide(
        &mut self,
        n: u32,
        rounds: u32,
        slot: u32,
        rows: &[Row],
        p: &mut Pointers,
        out: &mut Match,
    ) -> RoundsUsed
        requires { CanDecide n rounds rows.now p.old out.old }
        ensures name { self.new ≡ self.old }
        ensures decided { IsDecidedBy (moves_named self.old) (decision_named self.old) n rounds slot rows.now p.old
            (record { matched = out.new; numbers = result; places = p.new }) }
    {
        let scratch = &mut self.scratch;
        match self.name {
            SchedulerName::Islip => decide_in(n, rounds, slot, rows, p, out, scratch),
            SchedulerName::Firm => decide_firm_in(n, rounds, slot, rows, p, out, scratch),
            SchedulerName::Rrm => decide_rrm_in(n, rounds, slot, rows, p, out, scratch),
        }
    }

    /// Decides the slot as `decide` does, of rows that the caller keeps by columns. Takes no memory.
    pub fn decide_over(
        &mut self,
        n: u32,
        rounds: u32,
        slot: u32,
        columns: &Columns,
        p: &mut Pointers,
        out: &mut Match,
    ) -> RoundsUsed
        requires { CanDecide n rounds columns.now p.old out.old }
        ensures name { self.new ≡ self.old }
        ensures decided { IsDecidedBy (moves_named self.old) (decision_named self.old) n rounds slot columns.now p.old
            (record { matched = out.new; numbers = result; places = p.new }) }
    {
        let held = &mut self.scratch;
        match self.name {
            SchedulerName::Islip => decide_over(n, rounds, slot, columns, p, out, held),
            SchedulerName::Firm => decide_firm_over(n, rounds, slot, columns, p, out, held),
            SchedulerName::Rrm => decide_rrm_over(n, rounds, slot, columns, p, out, held),
        }
    }
}
