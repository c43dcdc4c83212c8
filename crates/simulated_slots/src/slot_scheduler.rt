ghost use Rattle.std.specs.Prelude.{◌≡◌};
ghost use Rattle.eslip_rounds.specs.Calls.{CanDecide, IsDecidedBy};
ghost use Rattle.named_schedulers.specs.Named.{decision_named, moves_named};

use islip_rounds::RoundsUsed;
use named_schedulers::NamedScheduler;
use pointer_state::Pointers;
use scheduler_names::SchedulerName;
use slot_match::Match;
use std::marker::Model;
use unicast_slots::{UnicastRows, UnicastScheduler};

/// A scheduler of one level of unicast. Contracts see it as its name.
#[derive(Drop)]
pub(crate) struct SlotScheduler {
    name: SchedulerName,
    // iSLIP, by the columns of the rows.
    unicast: UnicastScheduler,
    // Each other one.
    named: NamedScheduler,
}

impl Model for SlotScheduler {
    ghost use Rattle.std.specs.Prelude.{◌≡◌};
    ghost use Rattle.scheduler_names.specs.declared.names.SchedulerName.{SchedulerName};

    ghost Value = { SchedulerName };

    ghost view = { λ s. s.name };

    ghost invariant = { λ s. s.named ≡ s.name };
}

impl SlotScheduler {
    /// The scheduler of this name. Takes no memory.
    pub(crate) fn new(name: SchedulerName) -> SlotScheduler
        ensures { result ≡ name }
    {
        SlotScheduler {
            name,
            unicast: UnicastScheduler::new(),
            named: NamedScheduler::new(name),
        }
    }

    /// Decides slot number `slot` of a switch of `n` ports in `rounds` rounds, each from 1 to 64: sets `out` to the
    /// match, moves the pointers and answers how the rounds were used. There are `n` rows within `n`, and `p` and
    /// `out` are for `n` ports. Takes no memory.
    pub(crate) fn decide(
        &mut self,
        n: u32,
        rounds: u32,
        slot: u32,
        rows: &UnicastRows,
        p: &mut Pointers,
        out: &mut Match,
    ) -> RoundsUsed
        requires { CanDecide n rounds rows.now p.old out.old }
        ensures name { self.new ≡ self.old }
        ensures decided { IsDecidedBy (moves_named self.old) (decision_named self.old) n rounds slot rows.now p.old
            (record { matched = out.new; numbers = result; places = p.new }) }
    {
        match self.name {
            SchedulerName::Islip => self.unicast.decide(n, rounds, rows, p, out),
            SchedulerName::Firm | SchedulerName::Rrm => {
                self.named.decide(n, rounds, slot, rows.rows(), p, out)
            },
        }
    }
}
