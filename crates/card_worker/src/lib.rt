//! A worker that drives line cards at a board.
#![tactic(auto)]

mod alone;
mod close;
mod disbandment;
mod driver;
mod hands;
pub mod laws;
#[cfg(test)]
mod tests;
mod tries;

pub use alone::finish_alone;
pub use close::close_with;
pub use disbandment::disband;
pub use driver::drive;
pub use hands::{Gate, Group, Hand, Hands, Member, OpenGate};
