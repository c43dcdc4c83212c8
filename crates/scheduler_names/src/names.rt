ghost use Rattle.std.specs.Prelude.{◌≡◌};
ghost use Rattle.scheduler_names.specs.Words.{scheduler_named, scheduler_word};

/// A scheduler that a job can name.
#[derive(Clone, Copy, Debug, PartialEq, Eq)]
pub enum SchedulerName {
    /// `islip`: unicast by iSLIP (N. McKeown, IEEE/ACM Transactions on Networking 7(2), 1999), the scheduler of the board.
    Islip,
    /// `firm`: in the manner of FIRM (D. N. Serpanos and P. I. Antoniadis, IEEE INFOCOM 2000).
    Firm,
    /// `rrm`: round-robin matching, from which the paper on iSLIP begins.
    Rrm,
}

impl SchedulerName {
    /// The scheduler of this name, letter for letter; None where there is none.
    pub fn named(word: &str) -> Option<SchedulerName>
        ensures { result ≡ scheduler_named word.now }
    {
        match word {
            "islip" => Some(SchedulerName::Islip),
            "firm" => Some(SchedulerName::Firm),
            "rrm" => Some(SchedulerName::Rrm),
            _ => None,
        }
    }

    /// Its name.
    pub fn word(self) -> &'static str
        ensures { result.now ≡ scheduler_word self }
    {
        match self {
            SchedulerName::Islip => "islip",
            SchedulerName::Firm => "firm",
            SchedulerName::Rrm => "rrm",
        }
    }
}
