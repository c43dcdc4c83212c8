/// The numbers that compare an output of a run with the same output of the ideal switch, over the slots
/// noted.
#[derive(Clone, Copy, Debug, PartialEq, Eq)]
pub struct RefLine {
    /// One more than the last slot in which the ideal switch gave out a cell, 0 where it gave out none.
    pub ends: u32,
    /// One more than the last slot in which the run fed the output, 0 where it never did.
    pub runs: u32,
    /// By how many cells the ideal switch was ahead of the run at the end of a slot, at most.
    pub lead: u32,
    /// The sum of these numbers over all slots, in cells times slots: where both served the same cells, the
    /// sum of the slots by which the run served them later.
    pub extra: u64,
}
