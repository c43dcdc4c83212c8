//! Packet delays before the run: how long after its arrival a packet departs at most, from how packets may arrive alone.
#![tactic(auto)]

pub mod laws;
