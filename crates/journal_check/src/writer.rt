ghost use Rattle.std.specs.Prelude.{◌≡◌, ◌+◌, ◌≤◌, ◌<◌, ◌++◌, ◌∷◌, [], ℕ, List, length, map, IfOk, OnOk};
ghost use Rattle.journal_check.specs.Files.{JournalFile};
ghost use Rattle.journal_check.specs.Texts.{file_post, file_text, header_text};
ghost use Rattle.journal_check.specs.WritingSteps.{IsWriting};

use crate::bytes::{outputs_len, posts_len, put_header, put_outputs, put_posts};
use crate::header::HEADER_BYTES;
use crate::limits::MAX_JOURNAL_BYTES;
use board_state::MAX_SLOTS;
use byteorder::{BigEndian, ByteOrder};
use crossbar::Post;
use rotating_pick::{MAX_PORTS, MAX_ROUNDS, OutOfMemory};
use slot_match::Match;
use std::alloc::Global;
use std::marker::Model;

// The place of the number of slots, four bytes of the header.
const SLOTS_AT: usize = 8;

/// The bytes of a journal file as its slots come, one after another. As soon as they are more than a
/// journal file may have, none is kept, and only their number is counted on.
#[derive(Drop)]
pub struct JournalWriter {
    alloc: Global,
    ports: u32,
    rounds: u32,
    slots: u32,
    len: u64,
    bytes: Vec<u8>,
}

impl Model for JournalWriter {
    ghost use Rattle.std.specs.Prelude.{◌≤◌, ◌+◌, ◌*◌};
    ghost use Rattle.journal_check.specs.WritingSteps.{WriterValue};

    ghost Value = { WriterValue };

    ghost view = { λ writer. record {
      ports = writer.ports;
      rounds = writer.rounds;
      slots = writer.slots;
      len = writer.len;
      bytes = writer.bytes.items;
    } };

    // A slot has at most 64 posts of 66 bytes and 64 outputs of 2.
    ghost invariant = { λ writer. writer.len ≤ 12 + 4352 * writer.slots };
}

impl JournalWriter {
    /// The file of a switch of so many ports, 1 to 64, and rounds of a slot, 1 to 64, before its first
    /// slot. The only error is out of memory.
    pub fn make(alloc: Global, ports: u32, rounds: u32) -> Result<JournalWriter, OutOfMemory>
        requires ports { (0 < ports) × (ports ≤ MAX_PORTS) }
        requires rounds { (0 < rounds) × (rounds ≤ MAX_ROUNDS) }
        ensures { IfOk result (IsWriting (record { ports = ports; rounds = rounds; slots = [] })) }
    {
        let mut bytes = Vec::new(alloc);
        put_header(&mut bytes, ports, rounds, 0)?;
        Ok(JournalWriter {
            alloc,
            ports,
            rounds,
            slots: 0,
            len: HEADER_BYTES as u64,
            bytes,
        })
    }

    /// Appends a slot: what its ports posted, at most 64 posts, and its match. A file has at most
    /// 262,145 slots. The only error is out of memory; after it what is written is no file.
    pub fn put(&mut self, posts: &[Post], matched: &Match) -> Result<(), OutOfMemory>
        requires posts { length posts.now ≤ MAX_PORTS }
        requires slots { self.old.slots < MAX_SLOTS }
        ensures file { (file : JournalFile) → IsWriting file self.old → OnOk result (IsWriting
            (record file { slots = file.slots ++ (record { posts = map file_post posts.now; matched = matched.now }) ∷ [] }) self.new) }
        ensures count { OnOk result (self.new.slots ≡ self.old.slots + 1) }
    {
        let len = self.len + (posts_len(posts) + outputs_len(matched));
        if len <= MAX_JOURNAL_BYTES as u64 {
            put_posts(&mut self.bytes, posts)?;
            put_outputs(&mut self.bytes, matched)?;
        } else {
            self.bytes = Vec::new(self.alloc);
        }
        self.len = len;
        self.slots += 1;
        Ok(())
    }

    /// How many bytes the whole file has.
    pub fn len(&self) -> u64
        ensures { (file : JournalFile) → IsWriting file self.now → result ≡ length (file_text file) }
    {
        self.len
    }

    /// The file, which has at most 134,217,728 bytes. It takes no memory.
    pub fn finish(self) -> Vec<u8>
        requires { (file : JournalFile) × IsWriting file self × (length (file_text file) ≤ MAX_JOURNAL_BYTES) }
        ensures { (file : JournalFile) → IsWriting file self → length (file_text file) ≤ MAX_JOURNAL_BYTES → result.items ≡ file_text file }
    {
        let slots = self.slots;
        let mut bytes = self.bytes;
        set_slots(&mut bytes, slots);
        bytes
    }
}

// Writes the number of slots into the header of a file.
fn set_slots(text: &mut [u8], slots: u32)
    requires { 12 ≤ length text.old }
    ensures { (ports rounds before : ℕ) (rest : List ℕ) → text.old ≡ header_text ports rounds before ++ rest
        → text.new ≡ header_text ports rounds slots ++ rest }
{
    BigEndian::write_u32(&mut text[SLOTS_AT..], slots);
}
