ghost use Rattle.std.specs.Prelude.{◌≡◌, ◌≤◌, ◌<◌, ◌+◌, length, map, slice_index_or, string_bytes, take, IfErr, IfOk, OnErr, OnOk};
ghost use Rattle.std.specs.Option.{option_map};
ghost use Rattle.outside.specs.Contents.{Contents, NoneRead, append_out};
ghost use Rattle.outside.specs.Faults.{NeverFall, NoneRose, OnlyRose, of_writes};
ghost use Rattle.outside.specs.WholeFiles.{Puts, StopsAt};
ghost use Rattle.switch_plan.specs.ReadingSteps.{bytes_of_files};
ghost use Rattle.job_files.specs.FileSteps.{StopsAtPlace, StopsPutting, all_shown, files_before, pieced, written_at};
ghost use Rattle.job_files.specs.OutputFiles.{files_from, journal_name, nameless, packets_files, put_files, report_name, shown};

use crate::ending::Written;
use crate::pieces::{PiecedFile, Pieces, put_pieces};
use outside::{Failed, Files, put_out, put_whole, read_buffer};
use rotating_pick::MAX_PORTS;
use std::alloc::{AllocError, Global};

/// A file that a job writes.
#[derive(Drop)]
pub struct OutputFile {
    pub name: String,
    pub bytes: Vec<u8>,
}

/// What a job writes.
#[derive(Drop)]
pub struct JobTexts<P> {
    /// How many of the files are captures of outputs. They are the first; then come the report's and, where it is wanted,
    /// the journal's.
    pub outputs: usize,
    /// The files before the packets file, in order.
    pub files: Vec<OutputFile>,
    /// The packets file, where it is wanted.
    pub packets: Option<PiecedFile<P>>,
    /// What standard output is given after them.
    pub summary: String,
}

// The files of the outputs, in order: `PREFIX.j.pcap` is that of output `j`.
fn named(alloc: Global, prefix: &str, outputs: Vec<Vec<u8>>) -> Result<Vec<OutputFile>, AllocError>
    ensures { IfOk result (λ v. map shown v.items ≡ files_from prefix.now 0 (bytes_of_files outputs)) }
{
    let mut files = Vec::new(alloc);
    for bytes in outputs {
        let port = files.len();
        let name = format!(in alloc; "{prefix}.{port}.pcap")?;
        files.push(OutputFile { name, bytes })?;
    }
    Ok(files)
}

// The file of the report, `PREFIX.report`.
fn report_file(alloc: Global, prefix: &str, report: String) -> Result<OutputFile, AllocError>
    ensures { IfOk result (λ file. shown file ≡ record { name = report_name prefix.now; bytes = string_bytes report }) }
{
    let name = format!(in alloc; "{prefix}.report")?;
    Ok(OutputFile {
        name,
        bytes: report.into_bytes(),
    })
}

// The file of the journal, `PREFIX.journal`.
fn journal_file(alloc: Global, prefix: &str, bytes: Vec<u8>) -> Result<OutputFile, AllocError>
    ensures { IfOk result (λ file. shown file ≡ record { name = journal_name prefix.now; bytes = bytes.items }) }
{
    let name = format!(in alloc; "{prefix}.journal")?;
    Ok(OutputFile { name, bytes })
}

/// The packets file where there is one, `PREFIX.packets.csv`, with room for a piece of 65,536 bytes. The only error is out of
/// memory.
pub fn packets_file<P: Pieces + Drop>(
    alloc: Global,
    prefix: &str,
    pieces: Option<P>,
) -> Result<Option<PiecedFile<P>>, AllocError>
    ensures { IfOk result (λ file. pieced P.left file ≡ packets_files prefix.now (option_map P.left pieces)) }
{
    let Some(pieces) = pieces else {
        return Ok(None);
    };
    let name = format!(in alloc; "{prefix}.packets.csv")?;
    let room = read_buffer(alloc)?;
    Ok(Some(PiecedFile { name, pieces, room }))
}

/// The files of a run before its packets file, in order: the captures of the outputs, `PREFIX.j.pcap`, the report,
/// `PREFIX.report`, and the journal where there is one, `PREFIX.journal`. The only error is out of memory.
pub fn run_files(
    alloc: Global,
    prefix: &str,
    captures: Vec<Vec<u8>>,
    report: String,
    journal: Option<Vec<u8>>,
) -> Result<Vec<OutputFile>, AllocError>
    ensures { IfOk result (λ files. map shown files.items
        ≡ files_before prefix.now (bytes_of_files captures) (string_bytes report) (option_map (λ b. b.items) journal)) }
{
    let mut files = named(alloc, prefix, captures)?;
    files.push(report_file(alloc, prefix, report)?)?;
    if let Some(bytes) = journal {
        files.push(journal_file(alloc, prefix, bytes)?)?;
    }
    Ok(files)
}

// Begins the file and gives it all its bytes.
fn put_file<F: Files>(files: &mut F, file: &OutputFile) -> Result<(), Failed>
    ensures seen { (c : Contents) → Puts result (shown file.now) (F.faults files.old) (F.faults files.new) (F.seen c files.old) (F.seen c files.new) }
    ensures own { NoneRead F.seen files.old files.new }
    ensures no_fault { OnOk result (NoneRose (F.faults files.old) (F.faults files.new)) }
    ensures no_others { OnlyRose of_writes (F.faults files.old) (F.faults files.new) }
    ensures never_fall { NeverFall (F.faults files.old) (F.faults files.new) }
{
    put_whole(files, file.name.as_str(), file.bytes.as_slice())
}

// Begins and writes each file, in order; else the place of the first of which a call failed.
fn put_all<F: Files>(files: &mut F, output_files: &[OutputFile]) -> Result<(), u32>
    requires { length output_files.now ≤ MAX_PORTS + 3 }
    ensures ok { (c : Contents) → OnOk result (F.seen c files.new ≡ option_map (put_files (map shown output_files.now)) (F.seen c files.old)) }
    ensures place { IfErr result (λ place. place < length output_files.now) }
    ensures err { (c : Contents) → IfErr result (λ place. StopsAt (slice_index_or (map shown output_files.now) place nameless) (F.faults files.old)
        (F.faults files.new) (option_map (put_files (take place (map shown output_files.now))) (F.seen c files.old)) (F.seen c files.new)) }
    ensures own { NoneRead F.seen files.old files.new }
    ensures no_fault { OnOk result (NoneRose (F.faults files.old) (F.faults files.new)) }
    ensures no_others { OnlyRose of_writes (F.faults files.old) (F.faults files.new) }
    ensures never_fall { NeverFall (F.faults files.old) (F.faults files.new) }
{
    for (place, file) in output_files.iter().enumerate() {
        if put_file(files, file).is_err() {
            return Err(place as u32);
        }
    }
    Ok(())
}

// Begins and writes the packets file, where there is one.
fn put_packets<F: Files, P: Pieces>(
    files: &mut F,
    packets: &mut Option<PiecedFile<P>>,
) -> Result<(), Failed>
    ensures ok { (c : Contents) → OnOk result (F.seen c files.new ≡ option_map (put_files (pieced P.left packets.old)) (F.seen c files.old)) }
    ensures err { (c : Contents) → OnErr result (StopsAtPlace (pieced P.left packets.old) 0 (F.seen c files.old) (F.faults files.old) (F.faults files.new)
        (F.seen c files.new)) }
    ensures own { NoneRead F.seen files.old files.new }
    ensures no_fault { OnOk result (NoneRose (F.faults files.old) (F.faults files.new)) }
    ensures no_others { OnlyRose of_writes (F.faults files.old) (F.faults files.new) }
    ensures never_fall { NeverFall (F.faults files.old) (F.faults files.new) }
{
    match packets {
        Some(file) => {
            let room = file.room.as_mut_slice();
            put_pieces(files, file.name.as_str(), &mut file.pieces, room)
        }
        None => Ok(()),
    }
}

// What is written at a place among the files before the packets file, after so many outputs.
fn written_at(place: u32, outputs: usize) -> Written
    ensures { result ≡ written_at place outputs }
{
    let place_among_files = place as usize;
    if place_among_files < outputs {
        Written::Output(place)
    } else if place_among_files == outputs {
        Written::Report
    } else {
        Written::Journal
    }
}

/// Writes the files, one after the other, and then gives the summary to standard output; else what was being
/// written when a call failed. It takes no memory.
pub fn put_texts<F: Files, P: Pieces>(files: &mut F, texts: &mut JobTexts<P>) -> Result<(), Written>
    requires { length texts.old.files.items ≤ MAX_PORTS + 3 }
    ensures ok { (c : Contents) → OnOk result (F.seen c files.new
        ≡ option_map (λ d. append_out (string_bytes texts.old.summary) (put_files (all_shown P.left texts.old) d)) (F.seen c files.old)) }
    ensures err { (c : Contents) → IfErr result (λ written. StopsPutting texts.old.outputs (length texts.old.files.items) (all_shown P.left texts.old)
        (string_bytes texts.old.summary) written (F.seen c files.old) (F.faults files.old) (F.faults files.new) (F.seen c files.new)) }
    ensures own { NoneRead F.seen files.old files.new }
    ensures no_fault { OnOk result (NoneRose (F.faults files.old) (F.faults files.new)) }
    ensures no_others { OnlyRose of_writes (F.faults files.old) (F.faults files.new) }
    ensures never_fall { NeverFall (F.faults files.old) (F.faults files.new) }
{
    if let Err(place) = put_all(files, texts.files.as_slice()) {
        return Err(written_at(place, texts.outputs));
    }
    if put_packets(files, &mut texts.packets).is_err() {
        return Err(Written::Packets);
    }
    match put_out(files, texts.summary.as_str().as_bytes()) {
        Ok(()) => Ok(()),
        Err(_) => Err(Written::StandardOutput),
    }
}
