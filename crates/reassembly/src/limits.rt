use rotating_pick::LEVELS;

/// Flows of one input: two kinds at each level.
pub const FLOWS_PER_INPUT: usize = 2 * LEVELS as usize;
