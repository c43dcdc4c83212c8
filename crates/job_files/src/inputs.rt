ghost use Rattle.std.specs.Prelude.{◌≡◌, ◌≤◌, ◌<◌, ℕ, List, Bool, Some, true, length, vec_len, All, IfErr, IfOk, IfSome, OnOk};
ghost use Rattle.outside.specs.Contents.{Contents, NoneChanged, OnlyRead, StayAlike};
ghost use Rattle.outside.specs.Faults.{NeverFall, NoneRose, OnlyRose};
ghost use Rattle.outside.specs.WholeFiles.{Fits};
ghost use Rattle.switch_words.specs.Limits.{IsGenWithinLimits};
ghost use Rattle.switch_words.specs.Reading.{run_words, firm_words};
ghost use Rattle.switch_plan.specs.Made.{made_table, made_captures};
ghost use Rattle.switch_plan.specs.ReadingSteps.{bytes_of_files};
ghost use Rattle.job_files.specs.Inputs.{AreFilesRead, CapturesRead, EarlierFit};
ghost use Rattle.job_files.specs.Jobs.{AreNamed, IsInput, input_name, most_bytes, run_reads, firm_reads};
ghost use Rattle.job_files.specs.FileSteps.{AreOfSize, StopsReading, reads_words};
ghost use Rattle.job_files.specs.Statuses.{refused_by};

use crate::ending::Ending;
use crate::limits::capture_bytes;
use outside::{Files, ReadFailure, read_buffer, read_whole};
use rotating_pick::{MAX_FILE_BYTES, MAX_PORTS, OutOfMemory};
use std::alloc::Global;
use switch_plan::made_input;
use switch_words::{FirmJob, GenJob, RunJob};

/// A file that a job reads.
#[derive(Clone, Copy, Debug, PartialEq, Eq)]
pub enum InputFile {
    Table,
    /// The capture of this port.
    Capture(u32),
}

/// The bytes of a job's table and of the capture of each port.
#[derive(Drop)]
pub struct Inputs {
    pub table: Vec<u8>,
    pub captures: Vec<Vec<u8>>,
}

/// The names of the files that a job reads.
#[derive(Clone, Copy)]
pub struct Reads<'a> {
    pub table: &'a str,
    /// That of the capture of each port, from port 0 on.
    pub inputs: &'a [String],
    /// Whether the job is long: then a capture may have more bytes.
    pub long: bool,
}

/// The names of the files that a `run` job reads.
pub fn reads_of_run(job: &RunJob) -> Reads<'_>
    ensures names { reads_words result ≡ run_reads (run_words job.now) }
    ensures count { length result.inputs.now ≡ vec_len job.now.inputs }
{
    Reads {
        table: job.table.as_str(),
        inputs: job.inputs.as_slice(),
        long: job.settings.long,
    }
}

/// The names of the files that a `firm` job reads.
pub fn reads_of_firm(job: &FirmJob) -> Reads<'_>
    ensures names { reads_words result ≡ firm_reads (firm_words job.now) }
    ensures count { length result.inputs.now ≡ vec_len job.now.inputs }
{
    Reads {
        table: job.table.as_str(),
        inputs: job.inputs.as_slice(),
        long: job.settings.long,
    }
}

/// The name of the table, or of the capture of a port: empty where there is no such port.
pub fn input_name<'a>(reads: &Reads<'a>, input: InputFile) -> &'a str
    ensures { result.now ≡ input_name (reads_words reads.now) input }
{
    match input {
        InputFile::Table => reads.table,
        InputFile::Capture(port) => match reads.inputs.get(port as usize) {
            Some(name) => name.as_str(),
            None => "",
        },
    }
}

// The most bytes of the table, or of the capture of a port.
fn most_bytes(reads: &Reads<'_>, input: InputFile) -> usize
    ensures { result ≡ most_bytes (reads_words reads.now) input }
{
    match input {
        InputFile::Table => MAX_FILE_BYTES,
        InputFile::Capture(_) => capture_bytes(reads.long),
    }
}

// All bytes of the table, or of the capture of a port.
fn read_input<F: Files>(
    alloc: Global,
    reads: &Reads<'_>,
    files: &mut F,
    input: InputFile,
    buf: &mut [u8],
) -> Result<Vec<u8>, Ending>
    requires room { 0 < length buf.old }
    requires known { IsInput (reads_words reads.now) input }
    requires earlier { (c : Contents) → IfSome (F.seen c files.old) (EarlierFit (reads_words reads.now) input) }
    ensures seen { NoneChanged F.seen files.old files.new }
    ensures own { OnlyRead (input_name (reads_words reads.now) input) F.seen files.old files.new }
    ensures no_fault { OnOk result (NoneRose (F.faults files.old) (F.faults files.new)) }
    ensures refused { IfErr result (λ ending. OnlyRose (refused_by ending) (F.faults files.old) (F.faults files.new)) }
    ensures never_fall { NeverFall (F.faults files.old) (F.faults files.new) }
    ensures bytes { (c : Contents) → IfOk result (λ v. IfSome (F.seen c files.new)
        (λ d. d.file (input_name (reads_words reads.now) input) ≡ Some v.items)) }
    ensures fits { IfOk result (λ v. length v.items ≤ most_bytes (reads_words reads.now) input) }
    ensures stops { (c : Contents) → IfErr result (StopsReading (reads_words reads.now) (F.seen c files.new) (F.faults files.old) (F.faults files.new)) }
{
    let (name, most) = (input_name(reads, input), most_bytes(reads, input));
    match read_whole(alloc, files, name, most, buf) {
        Ok(bytes) => Ok(bytes),
        Err(ReadFailure::Fault) => Err(Ending::ReadFault(input)),
        Err(ReadFailure::TooLong) => Err(Ending::TooLong(input)),
        Err(ReadFailure::OutOfMemory) => Err(Ending::OutOfMemory),
    }
}

// All bytes of each capture, in order.
fn read_captures<F: Files>(
    alloc: Global,
    reads: &Reads<'_>,
    files: &mut F,
    buf: &mut [u8],
) -> Result<Vec<Vec<u8>>, Ending>
    requires room { 0 < length buf.old }
    requires ports { length reads.now.inputs.now ≤ MAX_PORTS }
    requires table { (c : Contents) → IfSome (F.seen c files.old) (λ d. Fits MAX_FILE_BYTES d (reads_words reads.now).table) }
    ensures seen { NoneChanged F.seen files.old files.new }
    ensures own { (named : List ℕ → Bool) → All (λ name. named name ≡ true) (reads_words reads.now).inputs → StayAlike named F.seen files.old files.new }
    ensures no_fault { OnOk result (NoneRose (F.faults files.old) (F.faults files.new)) }
    ensures refused { IfErr result (λ ending. OnlyRose (refused_by ending) (F.faults files.old) (F.faults files.new)) }
    ensures never_fall { NeverFall (F.faults files.old) (F.faults files.new) }
    ensures read { (c : Contents) → IfOk result (λ v. CapturesRead reads.now.long (reads_words reads.now).inputs (F.seen c files.new) (bytes_of_files v)) }
    ensures stops { (c : Contents) → IfErr result (StopsReading (reads_words reads.now) (F.seen c files.new) (F.faults files.old) (F.faults files.new)) }
{
    let mut captures = Vec::new(alloc);
    for port in 0..reads.inputs.len() as u32 {
        let capture = read_input(alloc, reads, files, InputFile::Capture(port), buf)?;
        captures.push(capture)?;
    }
    Ok(captures)
}

/// All bytes of the files of these names: of the table and of each capture, in this order. The error is how the job
/// ends: with the first file of which a read was refused or that is too long, or where memory runs out.
pub fn read_inputs<F: Files>(
    alloc: Global,
    reads: &Reads<'_>,
    files: &mut F,
) -> Result<Inputs, Ending>
    requires { length reads.now.inputs.now ≤ MAX_PORTS }
    ensures seen { NoneChanged F.seen files.old files.new }
    ensures own { (named : List ℕ → Bool) → AreNamed named (reads_words reads.now) → StayAlike named F.seen files.old files.new }
    ensures no_fault { OnOk result (NoneRose (F.faults files.old) (F.faults files.new)) }
    ensures refused { IfErr result (λ ending. OnlyRose (refused_by ending) (F.faults files.old) (F.faults files.new)) }
    ensures never_fall { NeverFall (F.faults files.old) (F.faults files.new) }
    ensures read { (c : Contents) → IfOk result (λ i. AreFilesRead (reads_words reads.now) (F.seen c files.new) i.table.items (bytes_of_files i.captures)) }
    ensures stops { (c : Contents) → IfErr result (StopsReading (reads_words reads.now) (F.seen c files.new) (F.faults files.old) (F.faults files.new)) }
{
    let mut piece = read_buffer(alloc)?;
    let buf = piece.as_mut_slice();
    let table = read_input(alloc, reads, files, InputFile::Table, buf)?;
    let captures = read_captures(alloc, reads, files, buf)?;
    Ok(Inputs { table, captures })
}

/// The input that a `gen` job makes. The only error is out of memory.
pub fn made_inputs(alloc: Global, job: &GenJob) -> Result<Inputs, OutOfMemory>
    requires { IsGenWithinLimits job.now }
    ensures table { IfOk result (λ i. i.table.items ≡ made_table job.now.ports) }
    ensures captures { IfOk result (λ i. bytes_of_files i.captures ≡ made_captures job.now) }
    ensures size { IfOk result (λ i. AreOfSize i.table.items (bytes_of_files i.captures)) }
{
    let made = made_input(alloc, job)?;
    Ok(Inputs {
        table: made.table,
        captures: made.captures,
    })
}
