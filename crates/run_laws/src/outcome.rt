use card_core::CardOut;
use slot_board::Journal;
use slot_report::Summary;

/// What a run leaves.
#[derive(Drop)]
pub struct Outcome {
    /// What came to each output, and how the packets of its port fared, from port 0 on.
    pub outputs: Vec<CardOut>,
    /// The decided slots.
    pub journal: Journal,
    /// The numbers of the run.
    pub summary: Summary,
}
