ghost use Rattle.std.specs.Prelude.{◌≡◌};
ghost use Rattle.run_notes.specs.UnwantedSteps.{wants_any, wants_each};

/// What a run is to tell beside its captures, the report's numbers and the summary.
#[derive(Clone, Copy, Debug, PartialEq, Eq)]
pub struct Wanted {
    /// A line for each slot.
    pub slots: bool,
    /// The journal.
    pub journal: bool,
    /// The lines of the output-queued reference.
    pub reference: bool,
    /// The lines of the queues.
    pub queues: bool,
    /// The packets file.
    pub packets: bool,
}

impl Wanted {
    /// Whether any of these is wanted.
    pub(crate) fn is_any(self) -> bool
        ensures { result ≡ wants_any self }
    {
        self.slots || self.journal || self.reference || self.queues || self.packets
    }

    /// Whether slots in which nothing happens are wanted one by one.
    pub(crate) fn is_each(self) -> bool
        ensures { result ≡ wants_each self }
    {
        self.slots || self.journal
    }
}
