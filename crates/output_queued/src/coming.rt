use rotating_pick::Ports;

/// A packet that comes to an input.
#[derive(Clone, Copy, Debug, PartialEq, Eq)]
pub struct Coming {
    /// The slot in which it arrives.
    pub slot: u32,
    /// How many cells it has, 1 to 1,171.
    pub cells: u32,
    /// The outputs that it goes to, one or more.
    pub fan: Ports,
    /// Its priority level, 0 to 3.
    pub level: u8,
}
