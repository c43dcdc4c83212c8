use card_core::CardPlan;
use pcap_records::Link;

/// What a job is to do in its slots.
#[derive(Debug, Drop)]
pub struct Plan {
    /// Whether outputs are written in nanoseconds, as some input is.
    pub nano: bool,
    /// The link type of all captures.
    pub link: Link,
    /// Rounds of request, grant and accept in a slot, 1 to 64.
    pub rounds: u32,
    /// The most cells of a queue: 1 to 131,072, or to 1,073,741,824 for a long job.
    pub depth: u32,
    /// Workers, 1 to 32.
    pub workers: u32,
    /// The run ends before this slot.
    pub max_slots: u32,
    /// How many packets have over 65,535 captured bytes, and go nowhere.
    pub oversize: u32,
    /// How many others have no route, and go nowhere.
    pub unrouted: u32,
    /// The card of each port, from port 0 on.
    pub cards: Vec<CardPlan>,
}
