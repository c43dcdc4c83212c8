use journal_check::Reason;

/// How a check of a journal file ends.
#[derive(Clone, Copy, Debug, PartialEq, Eq)]
pub enum CheckEnding {
    /// The file is lawful, and standard output was told so.
    Yes,
    /// The file is not lawful.
    No {
        /// The first slot that fails.
        slot: u32,
        /// Why.
        reason: Reason,
    },
    /// The bytes are not those of a journal file.
    Bad {
        /// The place of the first bad field.
        at: u32,
    },
    /// The file has more than 134,217,728 bytes.
    TooLong,
    /// A read of the file was refused.
    ReadFault,
    /// There was no memory.
    OutOfMemory,
    /// A call on standard output was refused.
    OutFault,
}
