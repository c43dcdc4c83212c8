use rotating_pick::LEVELS;

/// The numbers of a run.
#[derive(Clone, Copy, Debug, PartialEq, Eq)]
pub struct Summary {
    /// The number of ports.
    pub ports: u32,
    /// In how many rounds each slot was decided.
    pub rounds: u32,
    /// How many cells fit in a queue.
    pub depth: u32,
    /// How many slots were decided.
    pub slots: u32,
    /// How many records all input captures have.
    pub packets: u32,
    /// How many packets were too long to be forwarded.
    pub oversize: u32,
    /// How many packets had no route.
    pub unrouted: u32,
    /// How many packets had a route and did not fit in their queue.
    pub dropped: u32,
    /// How many packets were admitted to a queue.
    pub forwarded: u32,
    /// How many packets all output captures have.
    pub copies: u32,
    /// How many cells crossed; a cell that crosses to several outputs counts once for each.
    pub cells: u32,
    /// For each level the longest wait of a unicast queue, in slots.
    pub longest: [u32; LEVELS as usize],
}

/// What crossed to an output.
#[derive(Clone, Copy, Debug, PartialEq, Eq)]
pub struct OutLine {
    /// How many packets its capture has.
    pub packets: u32,
    /// How many cells crossed to it.
    pub cells: u32,
}
