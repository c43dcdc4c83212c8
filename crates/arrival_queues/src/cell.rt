/// A cell that came to a simulated switch. It carries nothing.
#[derive(Clone, Copy, Debug, PartialEq, Eq)]
pub struct ArrivedCell {
    /// The slot in which it came.
    pub arrival: u32,
    /// The input to which it came.
    pub input: u32,
    /// The output to which it goes.
    pub output: u32,
}
