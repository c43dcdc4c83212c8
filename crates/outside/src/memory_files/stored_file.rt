ghost use Rattle.std.specs.Prelude.{◌≡◌, ◌<◌, ◌+◌, [], ◌++◌, true, false, length, bytes_eq, string_bytes, vec_capacity, OnOk, OnErr};
ghost use Rattle.outside.specs.Calls.{no_calls, one_more};

use crate::memory_files::calls::{Call, CallCounts};
use std::alloc::AllocError;
use std::marker::Model;

// A file in memory, and how often a call of its name failed.
#[derive(Drop)]
pub(crate) struct StoredFile {
    name: String,
    bytes: Vec<u8>,
    begun: bool,
    faults: CallCounts,
}

impl Model for StoredFile {
    ghost use Rattle.std.specs.Prelude.{string_bytes, vec_capacity};
    ghost use Rattle.outside.specs.MemoryFiles.{FileState};

    ghost Value = { FileState };

    ghost view = { λ f. record { name = string_bytes f.name; bytes = f.bytes.items; room = vec_capacity f.bytes; begun = f.begun; faults = f.faults } };
}

impl StoredFile {
    pub(crate) fn make(name: String, bytes: Vec<u8>) -> StoredFile
        ensures { result ≡ record { name = string_bytes name; bytes = bytes.items; room = vec_capacity bytes; begun = false; faults = no_calls } }
    {
        StoredFile {
            name,
            bytes,
            begun: false,
            faults: CallCounts::NONE,
        }
    }

    pub(crate) fn begun(name: String, bytes: Vec<u8>, faults: CallCounts) -> StoredFile
        ensures { result ≡ record { name = string_bytes name; bytes = bytes.items; room = vec_capacity bytes; begun = true; faults = faults } }
    {
        StoredFile {
            name,
            bytes,
            begun: true,
            faults,
        }
    }

    pub(crate) fn has_name(&self, name: &str) -> bool
        ensures { result ≡ bytes_eq name.now self.now.name }
    {
        name == self.name.as_str()
    }

    pub(crate) fn bytes(&self) -> &[u8]
        ensures { result.now ≡ self.now.bytes }
    {
        self.bytes.as_slice()
    }

    pub(crate) fn empty(&mut self)
        ensures { self.new ≡ record self.old { bytes = []; begun = true } }
    {
        self.bytes.clear();
        self.begun = true;
    }

    pub(crate) fn append(&mut self, piece: &[u8]) -> Result<(), AllocError>
        ensures ok { OnOk result (self.new ≡ record self.old { bytes = self.old.bytes ++ piece.now; room = self.new.room }) }
        ensures err { OnErr result (self.new ≡ self.old) }
        ensures full { OnErr result (self.old.room < length self.old.bytes + length piece.now) }
    {
        self.bytes.reserve(piece.len())?;
        self.bytes.extend_from_slice(piece)
    }

    pub(crate) fn count(&mut self, call: Call)
        ensures { self.new ≡ record self.old { faults = one_more call self.old.faults } }
    {
        self.faults.raise(call);
    }
}
