//! The calls of the system, each noted with what it gave or took. No contract of std says what a file gives or
//! takes, so these bodies are to be read: each makes one call, and notes that one.
ghost use Rattle.std.specs.Prelude.{◌≡◌, ◌≤◌, ◌<◌, take, length, IfOk};
ghost use Rattle.outside.specs.Events.{Gave, Began, Took, TookOut, TookErr, noted_if};

use crate::call_log::{CallLog, Note};
use crate::files::Failed;
use crate::standard_error::StandardError;
use std::io::{Read, Write};
use std::{fs, rt};

// Reads a piece of a file that was opened by this name and stands at byte `at`.
pub(crate) fn read<F: Read>(
    log: &mut CallLog,
    file: &mut F,
    name: &str,
    at: u64,
    buf: &mut [u8],
) -> Result<usize, Failed>
    ensures log { log.new.events ≡ noted_if result (λ k. Gave name.now at (length buf.old) (take k buf.new)) log.old.events }
    ensures room { IfOk result (λ k. k ≤ length buf.old) }
{
    match file.read(buf) {
        Ok(count) => {
            *log = log.then(&Note::Gave(name, at, buf.len(), &buf[..count]));
            Ok(count)
        }
        Err(_) => Err(Failed),
    }
}

// Makes the file of this name anew.
pub(crate) fn create<R: rt::Files>(log: &mut CallLog, rt: &R, name: &str) -> Result<R::File, Failed>
    ensures log { log.new.events ≡ noted_if result (λ file. Began name.now) log.old.events }
{
    match fs::create(rt, name) {
        Ok(file) => {
            *log = log.then(&Note::Began(name));
            Ok(file)
        }
        Err(_) => Err(Failed),
    }
}

// Writes to a file that was opened by this name, at its end.
pub(crate) fn write<F: Write>(
    log: &mut CallLog,
    file: &mut F,
    name: &str,
    bytes: &[u8],
) -> Result<usize, Failed>
    ensures log { log.new.events ≡ noted_if result (λ k. Took name.now (take k bytes.now)) log.old.events }
    ensures room { IfOk result (λ k. k ≤ length bytes.now) }
    ensures some { IfOk result (λ k. 0 < length bytes.now → 0 < k) }
{
    match file.write(bytes) {
        Ok(count) if count > 0 || bytes.is_empty() => {
            *log = log.then(&Note::Took(name, &bytes[..count]));
            Ok(count)
        }
        _ => Err(Failed),
    }
}

// Writes to standard output.
pub(crate) fn out<R: Print>(log: &mut CallLog, rt: &R, bytes: &[u8]) -> Result<usize, Failed>
    ensures log { log.new.events ≡ noted_if result (λ k. TookOut (take k bytes.now)) log.old.events }
    ensures room { IfOk result (λ k. k ≤ length bytes.now) }
    ensures some { IfOk result (λ k. 0 < length bytes.now → 0 < k) }
{
    match rt.write_some(bytes) {
        Ok(count) if count > 0 || bytes.is_empty() => {
            *log = log.then(&Note::TookOut(&bytes[..count]));
            Ok(count)
        }
        _ => Err(Failed),
    }
}

// Writes to standard error.
pub(crate) fn err<R: StandardError>(
    log: &mut CallLog,
    rt: &R,
    bytes: &[u8],
) -> Result<usize, Failed>
    ensures log { log.new.events ≡ noted_if result (λ k. TookErr (take k bytes.now)) log.old.events }
    ensures room { IfOk result (λ k. k ≤ length bytes.now) }
    ensures some { IfOk result (λ k. 0 < length bytes.now → 0 < k) }
{
    match rt.write_error(bytes) {
        Ok(count) if count > 0 || bytes.is_empty() => {
            *log = log.then(&Note::TookErr(&bytes[..count]));
            Ok(count)
        }
        _ => Err(Failed),
    }
}
