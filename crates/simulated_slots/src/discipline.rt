ghost use Rattle.std.specs.Prelude.{◌≡◌};
ghost use Rattle.simulated_slots.specs.Jobs.{is_ideal, is_random, queueing_of, rounds_by, scheduler_of};

use arrival_queues::Queueing;
use scheduler_names::SchedulerName;

/// How a switch queues its cells, and which of them a slot serves.
#[derive(Clone, Copy, Debug, PartialEq, Eq)]
pub enum Discipline {
    /// Virtual output queues, one for each input and output, and this scheduler.
    Scheduled(SchedulerName),
    /// Virtual output queues, and parallel iterative matching: rounds in which each port that has a choice takes any with the
    /// same chance (T. E. Anderson, S. S. Owicki, J. B. Saxe and C. P. Thacker, ACM Transactions on Computer Systems 11(4),
    /// 1993).
    Pim,
    /// One queue for each input, whose first cell alone asks, by iSLIP with one round (M. J. Karol, M. G. Hluchyj and
    /// S. P. Morgan, IEEE Transactions on Communications 35(12), 1987, have the throughput of such a switch).
    Fifo,
    /// One queue for each output, which all cells of a slot enter, and each of which is served in each slot: no switch can
    /// have fewer cells waiting.
    Ideal,
}

impl Discipline {
    /// How it queues cells.
    pub fn queueing(self) -> Queueing
        ensures { result ≡ queueing_of self }
    {
        match self {
            Discipline::Scheduled(_) | Discipline::Pim => Queueing::ByPair,
            Discipline::Fifo => Queueing::ByInput,
            Discipline::Ideal => Queueing::ByOutput,
        }
    }

    /// Whether it is the ideal switch, which has no scheduler.
    pub fn is_ideal(self) -> bool
        ensures { result ≡ is_ideal self }
    {
        match self {
            Discipline::Scheduled(_) | Discipline::Pim | Discipline::Fifo => false,
            Discipline::Ideal => true,
        }
    }

    /// Whether its ports pick at random, and no scheduler does.
    pub fn is_random(self) -> bool
        ensures { result ≡ is_random self }
    {
        match self {
            Discipline::Pim => true,
            Discipline::Scheduled(_) | Discipline::Fifo | Discipline::Ideal => false,
        }
    }

    /// Its scheduler; that of an ideal switch has nothing to do, nor that of one whose ports pick at random.
    pub fn scheduler(self) -> SchedulerName
        ensures { result ≡ scheduler_of self }
    {
        match self {
            Discipline::Scheduled(name) => name,
            Discipline::Pim | Discipline::Fifo | Discipline::Ideal => SchedulerName::Islip,
        }
    }

    /// The rounds of a slot, where a job says so many.
    pub fn rounds(self, rounds: u32) -> u32
        ensures { result ≡ rounds_by self rounds }
    {
        match self {
            Discipline::Scheduled(_) | Discipline::Pim | Discipline::Ideal => rounds,
            Discipline::Fifo => 1,
        }
    }
}
