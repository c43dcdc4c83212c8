//! Laws of schedulers at their limits, as the contracts of functions that do nothing: full load, the longest waits at line
//! rate, and queues that grow below it.
#![tactic(auto)]

pub mod fed_slots;
pub mod full_load;
pub mod growing_queues;
pub mod reached_waits;
pub mod round_robin;
