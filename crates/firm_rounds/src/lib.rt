//! A scheduler in the manner of FIRM (D. N. Serpanos and P. I. Antoniadis, IEEE INFOCOM 2000).
//!
//! A slot is that of `eslip_rounds` except for one rule: an output whose grant was refused in the first round
//! points its grant pointer to the input that it granted, so that it grants this input again.
#![tactic(auto)]

pub mod laws;
mod slot;

pub use slot::{decide_firm, decide_firm_in, decide_firm_over};
