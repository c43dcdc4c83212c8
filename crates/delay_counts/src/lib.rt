//! How long many cells were delayed, counted so that percentiles cost little memory: 360 kilobytes, however many cells
//! there are.
#![tactic(auto)]

mod counts;
mod limits;
mod places;

pub use counts::{DelayCount, DelayCounts};
pub use limits::{DELAY_PLACES, MAX_DELAYS, WHOLE_SHARE, limits_are};
