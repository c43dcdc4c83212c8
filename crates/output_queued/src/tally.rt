ghost use Rattle.std.specs.Prelude.{◌≡◌, ℕ, ◌+◌, ◌-◌, ◌*◌, ◌^◌, ◌<◌, ◌≤◌, min, max, nat_lt, true, if◌then◌else◌, IsTrue, ◌↔◌};
ghost use Rattle.output_queued.specs.NotingSteps.{IsSmall, no_tally};
ghost use Rattle.output_queued.specs.Steps.{Ticks};

use crate::line::RefLine;

/// What is counted at an output.
#[derive(Clone, Copy)]
pub(crate) struct Tally {
    /// How many cells have come to it, those of the slot that is noted next among them.
    pub(crate) came: u64,
    /// How many the ideal switch has given out.
    pub(crate) given: u32,
    /// How many the run has fed to it.
    pub(crate) ran: u32,
    /// What the slots noted so far make of these.
    pub(crate) line: RefLine,
}

impl Tally {
    /// An output to which no cell has come.
    pub(crate) fn new() -> Tally
        ensures { result ≡ no_tally }
    {
        Tally {
            came: 0,
            given: 0,
            ran: 0,
            line: RefLine {
                ends: 0,
                runs: 0,
                lead: 0,
                extra: 0,
            },
        }
    }

    /// Whether a cell has come that the run has not served.
    pub(crate) fn is_behind(&self) -> bool
        ensures { IsTrue result ↔ (self.now.ran < self.now.came) }
    {
        u64::from(self.ran) < self.came
    }

    /// Notes slot `slot`: the ideal switch gives out a cell, if one waits, and the run feeds one or none.
    pub(crate) fn tick(&mut self, slot: u32, fed: bool)
        requires few { slot + 1 < 2 ^ 32 }
        requires small { IsSmall slot self.old }
        requires waits { IsTrue fed → self.old.ran < self.old.came }
        ensures ticks { Ticks slot (if fed then 1 else 0) self.old self.new }
    {
        if u64::from(self.given) < self.came {
            self.given += 1;
            self.line.ends = slot + 1;
        }
        if fed {
            self.ran += 1;
            self.line.runs = slot + 1;
        }
        let ahead = self.given - self.ran;
        self.line.lead = self.line.lead.max(ahead);
        self.line.extra += u64::from(ahead);
    }
}
