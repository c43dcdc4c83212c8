/// Whether a packet leaves by one output or by several.
#[derive(Clone, Copy, Debug, PartialEq, Eq, Hash)]
pub enum Kind {
    /// Unicast: one output.
    Uni,
    /// Multicast: a fan-out of several outputs.
    Multi,
}
