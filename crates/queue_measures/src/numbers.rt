ghost use Rattle.std.specs.Prelude.{◌≡◌};
ghost use Rattle.queue_measures.specs.Steps.{with_packet, HasRoom};

/// What a queue held over the slots of a run.
#[derive(Clone, Copy, Debug, PartialEq, Eq)]
pub struct QueueNumbers {
    /// The packets that were for the queue.
    pub packets: u32,
    /// Those of them that were dropped.
    pub dropped: u32,
    /// The cells of the others; a multicast cell counts once.
    pub cells: u32,
    /// The most cells that waited in a slot, with the packet that arrived in it and before it was served.
    pub peak: u32,
    /// The first slot in which so many waited, 0 where none ever did.
    pub slot: u32,
}

/// The numbers of a queue that no packet was for.
pub(crate) const NO_NUMBERS: QueueNumbers = QueueNumbers {
    packets: 0,
    dropped: 0,
    cells: 0,
    peak: 0,
    slot: 0,
};

impl QueueNumbers {
    /// The numbers with a packet of `cells` cells that came in slot `slot`; with it `length` cells wait.
    pub(crate) fn with_packet(
        self,
        slot: u32,
        cells: u32,
        admitted: bool,
        length: u32,
    ) -> QueueNumbers
        requires { HasRoom cells self }
        ensures { result ≡ with_packet slot cells admitted length self }
    {
        let mut numbers = self;
        numbers.packets += 1;
        if admitted {
            numbers.cells += cells;
        } else {
            numbers.dropped += 1;
        }
        if length > numbers.peak {
            numbers.peak = length;
            numbers.slot = slot;
        }
        numbers
    }
}
