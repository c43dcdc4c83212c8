/// The most slots that a meter of waits notes: as many as a number of 32 bits counts.
pub const MAX_NOTED: u32 = 4_294_967_295;
