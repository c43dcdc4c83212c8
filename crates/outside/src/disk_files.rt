ghost use Rattle.std.specs.Prelude.{◌≡◌, ◌≤◌, ◌<◌, [], take, length, IfOk};
ghost use Rattle.outside.specs.Calls.{counts_of_kinds, no_calls, one_more};
ghost use Rattle.outside.specs.Events.{Gave, Began, Took, noted_if, seen};

use crate::call_log::CallLog;
use crate::files::{Failed, Files};
use crate::memory_files::{Call, CallCounts};
use crate::noted_calls;
use crate::standard_error::StandardError;
use std::fs::OpenOptions;
use std::io::{Seek, SeekFrom};
use std::marker::Model;
use std::{fs, rt};

/// The files of the system, standard output and standard error. For each kind of call one count stands for the
/// faults of all names: after 2^64 - 1 of them it stays.
///
/// What is seen of them is what the calls of this process gave and took, over whatever contents they had at
/// the first.
///
/// The file that is read and the file that is written are left open from one piece to the next.
#[derive(Drop)]
pub struct DiskFiles<'r, R: rt::Files + Print + StandardError + AllocGlobal> {
    rt: &'r R,
    faults: CallCounts,
    log: CallLog,
    reading: Option<OpenFile<R::File>>,
    writing: Option<OpenFile<R::File>>,
}

// An open file, the name that it was opened by, and how many bytes from its start on were read. Where
// there was no memory for the name it is not found again, and the next piece opens the file anew.
#[derive(Drop)]
struct OpenFile<F: Drop> {
    name: Option<String>,
    file: F,
    place: u64,
}

impl<'r, R: rt::Files + Print + StandardError + AllocGlobal> Model for DiskFiles<'r, R> {
    ghost use Rattle.outside.specs.DiskFiles.{DiskState};

    ghost Value = { DiskState };

    ghost view = { λ d. record { faults = d.faults; calls = d.log.events } };
}

impl<F: Drop> OpenFile<F> {
    fn has_name(&self, name: &str) -> bool {
        match &self.name {
            Some(kept) => kept.as_str() == name,
            None => false,
        }
    }
}

impl<'r, R: rt::Files + Print + StandardError + AllocGlobal> DiskFiles<'r, R> {
    /// Over the runtime's files, standard output and standard error. No file is opened yet, no call is
    /// noted, and no fault is counted.
    pub fn make(rt: &'r R) -> DiskFiles<'r, R>
        ensures { result ≡ record { faults = no_calls; calls = [] } }
    {
        DiskFiles {
            rt,
            faults: CallCounts::NONE,
            log: CallLog::new(),
            reading: None,
            writing: None,
        }
    }

    // Counts a fault of this kind of call.
    fn fail(&mut self, call: Call) -> Failed
        ensures { self.new ≡ record self.old { faults = one_more call self.old.faults } }
    {
        self.faults.raise(call);
        Failed
    }

    fn kept_name(&self, name: &str) -> Option<String> {
        String::from_str(self.rt.alloc(), name).ok()
    }

    // A file is opened anew for its first piece, and closed after its last. It is moved to another
    // place only where it does not stand at this one: a pipe, which cannot be moved, is read in order.
    fn read_at(&mut self, name: &str, at: u64, buf: &mut [u8]) -> Result<usize, Failed>
        ensures room { IfOk result (λ k. k ≤ length buf.old) }
        ensures calls { self.new ≡ record self.old { calls = noted_if result (λ k. Gave name.now at (length buf.old) (take k buf.new)) self.old.calls } }
    {
        let mut open = match self.reading.take() {
            Some(open) if at > 0 && open.has_name(name) => open,
            _ => OpenFile {
                name: self.kept_name(name),
                file: fs::open(self.rt, name)?,
                place: 0,
            },
        };
        if open.place != at {
            open.file.seek(SeekFrom::Start(at))?;
        }
        let count = noted_calls::read(&mut self.log, &mut open.file, name, at, buf)?;
        open.place = at.saturating_add(count as u64);
        if count > 0 {
            self.reading = Some(open);
        }
        Ok(count)
    }

    fn create(&mut self, name: &str) -> Result<(), Failed>
        ensures calls { self.new ≡ record self.old { calls = noted_if result (λ done. Began name.now) self.old.calls } }
    {
        let file = noted_calls::create(&mut self.log, self.rt, name)?;
        self.writing = Some(OpenFile {
            name: self.kept_name(name),
            file,
            place: 0,
        });
        Ok(())
    }

    fn append(&mut self, name: &str, bytes: &[u8]) -> Result<usize, Failed>
        ensures room { IfOk result (λ k. k ≤ length bytes.now) }
        ensures some { IfOk result (λ k. 0 < length bytes.now → 0 < k) }
        ensures calls { self.new ≡ record self.old { calls = noted_if result (λ k. Took name.now (take k bytes.now)) self.old.calls } }
    {
        let mut open = match self.writing.take() {
            Some(open) if open.has_name(name) => open,
            _ => OpenFile {
                name: self.kept_name(name),
                file: OpenOptions::new().append(true).open(self.rt, name)?,
                place: 0,
            },
        };
        let count = noted_calls::write(&mut self.log, &mut open.file, name, bytes)?;
        self.writing = Some(open);
        Ok(count)
    }
}

impl<'r, R: rt::Files + Print + StandardError + AllocGlobal> Files for DiskFiles<'r, R> {
    ghost seen = { λ c d. seen d.calls c };

    ghost faults = { λ d. counts_of_kinds d.faults };

    fn read(&mut self, name: &str, at: u64, buf: &mut [u8]) -> Result<usize, Failed> {
        match self.read_at(name, at, buf) {
            Ok(count) => Ok(count),
            Err(_) => Err(self.fail(Call::Read)),
        }
    }

    fn begin(&mut self, name: &str) -> Result<(), Failed> {
        match self.create(name) {
            Ok(()) => Ok(()),
            Err(_) => Err(self.fail(Call::Begin)),
        }
    }

    fn write(&mut self, name: &str, bytes: &[u8]) -> Result<usize, Failed> {
        match self.append(name, bytes) {
            Ok(count) => Ok(count),
            Err(_) => Err(self.fail(Call::Write)),
        }
    }

    fn out(&mut self, bytes: &[u8]) -> Result<usize, Failed> {
        match noted_calls::out(&mut self.log, self.rt, bytes) {
            Ok(count) => Ok(count),
            Err(_) => Err(self.fail(Call::Out)),
        }
    }

    fn err(&mut self, bytes: &[u8]) -> Result<usize, Failed> {
        match noted_calls::err(&mut self.log, self.rt, bytes) {
            Ok(count) => Ok(count),
            Err(_) => Err(self.fail(Call::Err)),
        }
    }
}
