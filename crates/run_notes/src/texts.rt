ghost use Rattle.std.specs.Prelude.{◌≡◌};
ghost use Rattle.run_notes.specs.declared.texts.NotesFault.TheVariants.{OutOfMemory};

use packet_times::PacketRows;
use rotating_pick::OutOfMemory;

/// The texts that were wanted of a run.
#[derive(Drop)]
pub struct NotedTexts {
    /// The lines of its slots, empty where they are not wanted.
    pub slots: String,
    /// The bytes of the journal, at most 134,217,728, where it is wanted.
    pub journal: Option<Vec<u8>>,
    /// The lines of the reference, empty where they are not wanted.
    pub reference: String,
    /// The lines of the queues, empty where they are not wanted.
    pub queues: String,
    /// The packets file, piece by piece, where it is wanted: of at most 134,217,728 bytes where the run is not long.
    pub packets: Option<PacketRows>,
}

/// Why the texts of a run are not made.
#[derive(Clone, Copy, Debug, PartialEq, Eq)]
pub enum NotesFault {
    /// The journal would have this many bytes, more than 134,217,728.
    JournalTooLong(u64),
    /// The packets file would have this many bytes, more than 134,217,728, and the run is not long.
    PacketsTooLong(u64),
    /// There was no memory.
    OutOfMemory,
}

impl From<OutOfMemory> for NotesFault {
    ghost from_gives = { λ _ fault. fault ≡ OutOfMemory };

    fn from(_error: OutOfMemory) -> NotesFault {
        NotesFault::OutOfMemory
    }
}
