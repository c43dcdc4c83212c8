//! What a job is to do before its first slot: the made input of `gen`, the plan of a job's table and
//! captures, and the first reason to refuse it.
#![tactic(auto)]

mod by_port;
mod capture_files;
mod fault;
pub mod jobs;
pub mod laws;
mod limits;
mod links;
mod made;
mod made_capture;
mod made_table;
mod output_rooms;
mod plan;
mod plan_checks;
mod port_limits;
mod port_plans;
mod port_rooms;
mod totals;
mod traffic;

pub use fault::PlanFault;
pub use limits::{
    Limits, MAX_CELLS, MAX_CELLS_OF_MANY, MAX_LONG_CELLS, MAX_LONG_PACKETS, MAX_LONG_SLOTS,
    limits_are,
};
pub use made::{Made, made_input};
pub use plan::Plan;
