ghost use Rattle.std.specs.Prelude.{◌≡◌, ◌≢◌, ◌≤◌, ◌<◌, ◌↔◌, ◌⊎◌, ◌+◌, ◌++◌, true, Some, vec_capacity, length, take, drop, min, string_bytes};
ghost use Rattle.std.specs.Prelude.{AllPairs, IfOk, IsErr, IsNone, OnErr, OnOk};
ghost use Rattle.std.specs.Option.{option_copied};
ghost use Rattle.outside.specs.Calls.{no_calls, one_more};
ghost use Rattle.outside.specs.Contents.{Contents, GivesPiece, OnlyRead, after_begin, after_err, after_out, after_write};
ghost use Rattle.outside.specs.Faults.{Place, ReadOf, BeginOf, WriteOf, ToOut, ToErr, NeverFall, NoneRose, OnlyRose, Rose, of_err, of_reads, of_writes};
ghost use Rattle.outside.specs.MemoryFiles.{contents_of, contents_given, faults_of, faults_after, piece_length, HasNoRoom, IsToFail, MakesCall};

use crate::files::{Failed, Files};
use crate::memory_files::calls::FailPlan;
use crate::memory_files::file_list::{append_to, begin_file, bytes_of, count_fault};
use crate::memory_files::given_files::stored;
use crate::memory_files::stored_file::StoredFile;
use rotating_pick::OutOfMemory;
use std::alloc::{AllocError, Global};
use std::marker::Model;

mod calls;
mod file_list;
mod given_files;
mod stored_file;

pub(crate) use calls::CallCounts;
pub use calls::{Call, Fail};
pub use given_files::names_differ;

/// Files in memory, of which all that they hold is seen: for tests, and for whoever keeps no files on a disk.
#[derive(Drop)]
pub struct MemFiles {
    alloc: Global,
    files: Vec<StoredFile>,
    elsewhere: CallCounts,
    out: Vec<u8>,
    err: Vec<u8>,
    piece: usize,
    plan: FailPlan,
}

impl Model for MemFiles {
    ghost use Rattle.std.specs.Prelude.{◌<◌, vec_capacity};
    ghost use Rattle.outside.specs.MemoryFiles.{MemoryState};

    ghost Value = { MemoryState };

    ghost view = { λ m. record {
      files = m.files.items;
      elsewhere = m.elsewhere;
      out = m.out.items;
      err = m.err.items;
      piece = m.piece;
      fails = m.plan.fails.items;
      made = m.plan.made;
      out_room = vec_capacity m.out;
      err_room = vec_capacity m.err;
    } };

    ghost invariant = { λ m. 0 < m.piece };
}

impl MemFiles {
    /// The given files, none of them begun, of which no two have the same name (`names_differ` tells).
    /// Each call takes or gives at most `piece` bytes, at least 1, and the calls that `fails` names
    /// fail.
    pub fn make(
        alloc: Global,
        files: Vec<(String, Vec<u8>)>,
        piece: u32,
        fails: Vec<Fail>,
    ) -> Result<MemFiles, OutOfMemory>
        requires some { 0 < piece }
        requires names { AllPairs (λ f g. string_bytes f.0 ≢ string_bytes g.0) files.items }
        ensures contents { IfOk result (λ m. contents_of m ≡ contents_given files.items) }
        ensures faults { IfOk result (λ m. (p : Place) → faults_of m p ≡ 0) }
        ensures piece { IfOk result (λ m. m.piece ≡ piece) }
        ensures fails { IfOk result (λ m. m.fails ≡ fails.items) }
        ensures made { IfOk result (λ m. m.made ≡ no_calls) }
    {
        Ok(MemFiles {
            alloc,
            files: stored(alloc, files)?,
            elsewhere: CallCounts::NONE,
            out: Vec::new(alloc),
            err: Vec::new(alloc),
            piece: piece as usize,
            plan: FailPlan {
                fails,
                made: CallCounts::NONE,
            },
        })
    }

    /// The bytes of the named file; None exactly where it is not there.
    pub fn file(&self, name: &str) -> Option<&[u8]>
        ensures { option_copied result ≡ (contents_of self.now).file name.now }
    {
        bytes_of(self.files.as_slice(), name)
    }

    /// All bytes that standard output was given.
    pub fn out_text(&self) -> &[u8]
        ensures { result.now ≡ (contents_of self.now).out }
    {
        self.out.as_slice()
    }

    /// All bytes that standard error was given.
    pub fn err_text(&self) -> &[u8]
        ensures { result.now ≡ (contents_of self.now).err }
    {
        self.err.as_slice()
    }
}

// Copies a piece of at most `most` bytes, from byte `at` on.
fn copy_piece(bytes: &[u8], at: u64, most: usize, buf: &mut [u8]) -> usize
    requires { 0 < most }
    ensures count { result ≡ min most (min (length buf.old) (length (drop at bytes.now))) }
    ensures room { result ≤ length buf.old }
    ensures within { result ≤ length (drop at bytes.now) }
    ensures same { take result buf.new ≡ take result (drop at bytes.now) }
    ensures end { 0 < length buf.old → (result ≡ 0) ↔ (length bytes.now ≤ at) }
{
    if at >= bytes.len() as u64 {
        return 0;
    }
    let at = at as usize;
    let count = most.min(buf.len()).min(bytes.len() - at);
    buf[..count].copy_from_slice(&bytes[at..at + count]);
    count
}

// The first bytes, at most `most` of them.
fn first_piece(bytes: &[u8], most: usize) -> &[u8]
    ensures { result.now ≡ take (min most (length bytes.now)) bytes.now }
{
    &bytes[..most.min(bytes.len())]
}

// Appends a first piece of at most `most` bytes.
fn append_piece(text: &mut Vec<u8>, bytes: &[u8], most: usize) -> Result<usize, AllocError>
    ensures count { IfOk result (λ k. k ≡ min most (length bytes.now)) }
    ensures ok { IfOk result (λ k. text.new.items ≡ text.old.items ++ take k bytes.now) }
    ensures err { OnErr result (text.new.items ≡ text.old.items) }
    ensures full { OnErr result (vec_capacity text.old < length text.old.items + min most (length bytes.now)) }
{
    let piece = first_piece(bytes, most);
    text.extend_from_slice(piece)?;
    Ok(piece.len())
}

// Counts a failed call that names no file.
fn count_elsewhere(elsewhere: &mut CallCounts, call: Call) -> Failed
    ensures { elsewhere.new ≡ one_more call elsewhere.old }
{
    elsewhere.raise(call);
    Failed
}

// Beside what the trait says: how many bytes a call takes or gives, when it fails, and that a failure
// raises the counts of its own kind and name, or of all names that are not there, and no other. A call
// that is not planned to fail, and needs no memory, does not fail.
impl Files for MemFiles {
    ghost seen = { λ c m. Some (contents_of m) };

    ghost faults = { faults_of };

    fn read(&mut self, name: &str, at: u64, buf: &mut [u8]) -> Result<usize, Failed>
        ensures seen { (c : Contents) → Some (contents_of self.new) ≡ Some (contents_of self.old) }
        ensures piece { (c : Contents) → IfOk result (λ k. GivesPiece ((contents_of self.new).file name.now) at (length buf.old) buf.new k) }
        ensures own { OnlyRead name.now (λ c m. Some (contents_of m)) self.old self.new }
        ensures room { IfOk result (λ k. k ≤ length buf.old) }
        ensures cause { OnErr result (Rose (faults_of self.old (ReadOf name.now)) (faults_of self.new (ReadOf name.now))) }
        ensures no_fault { OnOk result (NoneRose (faults_of self.old) (faults_of self.new)) }
        ensures no_others { OnlyRose of_reads (faults_of self.old) (faults_of self.new) }
        ensures never_fall { NeverFall (faults_of self.old) (faults_of self.new) }

        ensures count { IfOk result (λ k. k ≡ piece_length self.old.piece at (length buf.old) ((contents_of self.old).file name.now)) }
        ensures failed { IsErr result ↔ (IsToFail Call.Read self.old ⊎ IsNone ((contents_of self.old).file name.now)) }
        ensures counts { (p : Place) → faults_of self.new p ≡ faults_after result (contents_of self.old) (ReadOf name.now) (faults_of self.old) p }
        ensures call { MakesCall Call.Read self.old self.new }
    {
        if self.plan.fails_next(Call::Read) {
            return Err(count_fault(&mut self.files, &mut self.elsewhere, Call::Read, name));
        }
        match bytes_of(self.files.as_slice(), name) {
            Some(bytes) => Ok(copy_piece(bytes, at, self.piece, buf)),
            None => Err(count_fault(&mut self.files, &mut self.elsewhere, Call::Read, name)),
        }
    }

    fn begin(&mut self, name: &str) -> Result<(), Failed>
        ensures seen { (c : Contents) → Some (contents_of self.new) ≡ after_begin result name.now (Some (contents_of self.old)) }
        ensures cause { OnErr result (Rose (faults_of self.old (BeginOf name.now)) (faults_of self.new (BeginOf name.now))) }
        ensures no_fault { OnOk result (NoneRose (faults_of self.old) (faults_of self.new)) }
        ensures no_others { OnlyRose of_writes (faults_of self.old) (faults_of self.new) }
        ensures never_fall { NeverFall (faults_of self.old) (faults_of self.new) }

        ensures planned { IsToFail Call.Begin self.old → IsErr result }
        ensures cause_of_failure { OnErr result (IsToFail Call.Begin self.old ⊎ IsNone ((contents_of self.old).file name.now)) }
        ensures counts { (p : Place) → faults_of self.new p ≡ faults_after result (contents_of self.old) (BeginOf name.now) (faults_of self.old) p }
        ensures call { MakesCall Call.Begin self.old self.new }
    {
        if self.plan.fails_next(Call::Begin) {
            return Err(count_fault(&mut self.files, &mut self.elsewhere, Call::Begin, name));
        }
        match begin_file(&mut self.files, self.alloc, self.elsewhere, name) {
            Ok(()) => Ok(()),
            Err(_) => Err(count_fault(&mut self.files, &mut self.elsewhere, Call::Begin, name)),
        }
    }

    fn write(&mut self, name: &str, bytes: &[u8]) -> Result<usize, Failed>
        requires begun { (contents_of self.old).begun name.now ≡ true }
        ensures seen { (c : Contents) → Some (contents_of self.new) ≡ after_write result name.now bytes.now (Some (contents_of self.old)) }
        ensures room { IfOk result (λ k. k ≤ length bytes.now) }
        ensures some { IfOk result (λ k. 0 < length bytes.now → 0 < k) }
        ensures cause { OnErr result (Rose (faults_of self.old (WriteOf name.now)) (faults_of self.new (WriteOf name.now))) }
        ensures no_fault { OnOk result (NoneRose (faults_of self.old) (faults_of self.new)) }
        ensures no_others { OnlyRose of_writes (faults_of self.old) (faults_of self.new) }
        ensures never_fall { NeverFall (faults_of self.old) (faults_of self.new) }

        ensures count { IfOk result (λ k. k ≡ min self.old.piece (length bytes.now)) }
        ensures planned { IsToFail Call.Write self.old → IsErr result }
        ensures cause_of_failure { OnErr result (IsToFail Call.Write self.old ⊎ HasNoRoom self.old.files name.now (min self.old.piece (length bytes.now))) }
        ensures counts { (p : Place) → faults_of self.new p ≡ faults_after result (contents_of self.old) (WriteOf name.now) (faults_of self.old) p }
        ensures call { MakesCall Call.Write self.old self.new }
    {
        if self.plan.fails_next(Call::Write) {
            return Err(count_fault(&mut self.files, &mut self.elsewhere, Call::Write, name));
        }
        let piece = first_piece(bytes, self.piece);
        match append_to(&mut self.files, name, piece) {
            Ok(()) => Ok(piece.len()),
            Err(_) => Err(count_fault(&mut self.files, &mut self.elsewhere, Call::Write, name)),
        }
    }

    fn out(&mut self, bytes: &[u8]) -> Result<usize, Failed>
        ensures seen { (c : Contents) → Some (contents_of self.new) ≡ after_out result bytes.now (Some (contents_of self.old)) }
        ensures room { IfOk result (λ k. k ≤ length bytes.now) }
        ensures some { IfOk result (λ k. 0 < length bytes.now → 0 < k) }
        ensures cause { OnErr result (Rose (faults_of self.old ToOut) (faults_of self.new ToOut)) }
        ensures no_fault { OnOk result (NoneRose (faults_of self.old) (faults_of self.new)) }
        ensures no_others { OnlyRose of_writes (faults_of self.old) (faults_of self.new) }
        ensures never_fall { NeverFall (faults_of self.old) (faults_of self.new) }

        ensures count { IfOk result (λ k. k ≡ min self.old.piece (length bytes.now)) }
        ensures planned { IsToFail Call.Out self.old → IsErr result }
        ensures cause_of_failure { OnErr result
            (IsToFail Call.Out self.old ⊎ (self.old.out_room < length self.old.out + min self.old.piece (length bytes.now))) }
        ensures counts { (p : Place) → faults_of self.new p ≡ faults_after result (contents_of self.old) ToOut (faults_of self.old) p }
        ensures call { MakesCall Call.Out self.old self.new }
    {
        if self.plan.fails_next(Call::Out) {
            return Err(count_elsewhere(&mut self.elsewhere, Call::Out));
        }
        match append_piece(&mut self.out, bytes, self.piece) {
            Ok(count) => Ok(count),
            Err(_) => Err(count_elsewhere(&mut self.elsewhere, Call::Out)),
        }
    }

    fn err(&mut self, bytes: &[u8]) -> Result<usize, Failed>
        ensures seen { (c : Contents) → Some (contents_of self.new) ≡ after_err result bytes.now (Some (contents_of self.old)) }
        ensures room { IfOk result (λ k. k ≤ length bytes.now) }
        ensures some { IfOk result (λ k. 0 < length bytes.now → 0 < k) }
        ensures cause { OnErr result (Rose (faults_of self.old ToErr) (faults_of self.new ToErr)) }
        ensures no_fault { OnOk result (NoneRose (faults_of self.old) (faults_of self.new)) }
        ensures no_others { OnlyRose of_err (faults_of self.old) (faults_of self.new) }
        ensures never_fall { NeverFall (faults_of self.old) (faults_of self.new) }

        ensures count { IfOk result (λ k. k ≡ min self.old.piece (length bytes.now)) }
        ensures planned { IsToFail Call.Err self.old → IsErr result }
        ensures cause_of_failure { OnErr result
            (IsToFail Call.Err self.old ⊎ (self.old.err_room < length self.old.err + min self.old.piece (length bytes.now))) }
        ensures counts { (p : Place) → faults_of self.new p ≡ faults_after result (contents_of self.old) ToErr (faults_of self.old) p }
        ensures call { MakesCall Call.Err self.old self.new }
    {
        if self.plan.fails_next(Call::Err) {
            return Err(count_elsewhere(&mut self.elsewhere, Call::Err));
        }
        match append_piece(&mut self.err, bytes, self.piece) {
            Ok(count) => Ok(count),
            Err(_) => Err(count_elsewhere(&mut self.elsewhere, Call::Err)),
        }
    }
}
