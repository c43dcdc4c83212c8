/// The bytes of a file's header.
pub const FILE_HEADER_BYTES: usize = 24;

/// The bytes of a record's header.
pub const RECORD_HEADER_BYTES: usize = 16;
