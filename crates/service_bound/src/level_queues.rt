ghost use Rattle.std.specs.Prelude.{◌≡◌, ℕ, ◌+◌, ◌<◌, ◌≤◌, ◌==◌, length, slice_index};
ghost use Rattle.std.specs.Int.{bit_at};
ghost use Rattle.rotating_pick.specs.PortSets.{Has};
ghost use Rattle.service_bound.specs.MeterSteps.{queues_at_first, longest_of, longest_at, HaveBegun, NotesSlot};

use crate::limits::MAX_NOTED;
use rotating_pick::{PORT_COUNT, Ports, difference, lowest, without};
use std::marker::Model;

/// The waits of the queues of one input at one level, one queue for each output that a switch can have.
/// How many slots were noted is the caller's to know.
#[derive(Drop)]
pub(crate) struct LevelQueues {
    // The outputs whose queue waits.
    waiting: Ports,
    // For each output the number of the slot in which its queue began to wait.
    began: [u32; PORT_COUNT],
    // The longest wait that has ended.
    ended: u32,
}

impl Model for LevelQueues {
    ghost use Rattle.service_bound.specs.MeterSteps.{Queues};

    ghost Value = { Queues };

    ghost view = { λ q. record { waiting = q.waiting; began = q.began; ended = q.ended } };
}

impl LevelQueues {
    /// The queues of an input, none of which waits.
    pub(crate) fn new() -> LevelQueues
        ensures { result ≡ queues_at_first }
    {
        LevelQueues {
            waiting: 0,
            began: [0; PORT_COUNT],
            ended: 0,
        }
    }

    /// Notes slot `count`, in which the queues to `outputs` wait, after as many slots.
    pub(crate) fn note(&mut self, count: u32, outputs: Ports)
        requires few { count < MAX_NOTED }
        requires begun { HaveBegun self.old.began self.old.waiting count }
        requires among { (j : ℕ) → Has outputs j → j < length self.old.began }
        ensures { NotesSlot count (λ j. bit_at outputs j == 1) self.old self.new }
    {
        if outputs == self.waiting {
            return;
        }
        let ended = difference(self.waiting, outputs);
        self.ended = self.ended.max(longest_of(&self.began, ended, count));
        begin(&mut self.began, difference(outputs, self.waiting), count);
        self.waiting = outputs;
    }

    /// The longest wait so far, after `count` slots.
    pub(crate) fn longest(&self, count: u32) -> u32
        requires { HaveBegun self.now.began self.now.waiting count }
        ensures { result ≡ longest_at self.now count }
    {
        self.ended.max(longest_of(&self.began, self.waiting, count))
    }
}

// The longest of the waits of these outputs, which began in some of `count` slots, and 0 of none.
fn longest_of(began: &[u32], outputs: Ports, count: u32) -> u32
    requires { HaveBegun began.now outputs count }
    ensures { result ≡ longest_of began.now outputs count }
{
    let mut longest: u32 = 0;
    let mut left = outputs;
    while let Some(output) = lowest(left) {
        longest = longest.max(count - began[output as usize]);
        left = without(left, output);
    }
    longest
}

// The waits of these outputs begin in slot `count`.
fn begin(began: &mut [u32], outputs: Ports, count: u32)
    requires { (j : ℕ) → Has outputs j → j < length began.old }
    ensures begun { (j : ℕ) → Has outputs j → slice_index began.new j ≡ count }
    ensures others { (j : ℕ) → (Has outputs j → ⊥) → slice_index began.new j ≡ slice_index began.old j }
{
    let mut left = outputs;
    while let Some(output) = lowest(left) {
        began[output as usize] = count;
        left = without(left, output);
    }
}
