//! Lemmas on words of the standard library alone, for the crates above.
#![tactic(auto)]
