ghost use Rattle.std.specs.Prelude.{◌≡◌, [], ◌∷◌, ◌++◌, codes, decimal, map, OnErr, OnOk};
ghost use Rattle.std.specs.List.{concat};
ghost use Rattle.outside.specs.Contents.{Contents, NoneRead};
ghost use Rattle.outside.specs.Faults.{ToErr, NeverFall, NoneRose, OnlyRose, Rose, of_err};
ghost use Rattle.pcap_records.specs.Texts.{hex_text};
ghost use Rattle.switch_words.specs.Reading.{job_words};
ghost use Rattle.job_files.specs.ErrorLines.{check_line, checked_line, line_of, name_read, name_written, named_line, reason_parts, usage_line};
ghost use Rattle.job_files.specs.LineParts.{Gives, PrintsLine, part_text};
ghost use Rattle.job_files.specs.RefusalLines.{capture_line, memory_line, refusal_line, table_line};
ghost use Rattle.job_files.specs.Statuses.{check_status, status_of};

use crate::check_ending::CheckEnding;
use crate::ending::{Ending, Written};
use crate::inputs::{InputFile, input_name, reads_of_firm, reads_of_run};
use forward_table::TableFault;
use itoa::Buffer;
use journal_check::Reason;
use outside::{Failed, Files};
use pcap_records::PcapFault;
use switch_plan::PlanFault;
use switch_words::Job;

const USAGE: &str =
    "usage: tiny_tera run [options] TABLE PREFIX INPUT.. or tiny_tera gen [options] SEED COUNT PORTS or tiny_tera check FILE \
    or tiny_tera firm [options] TABLE INPUT..\n";

const MEMORY: &str = "out of memory\n";

/// A part of a line.
#[derive(Clone, Copy)]
enum Part<'a> {
    Text(&'a str),
    /// In decimal digits.
    Number(u64),
    /// In 8 lower-case hexadecimal digits.
    Magic(u32),
}

use Part::{Magic, Number, Text};

// Gives all of the bytes to standard error, in as many calls as it takes.
fn give_bytes<F: Files>(files: &mut F, bytes: &[u8]) -> Result<(), Failed>
    ensures seen { (c : Contents) → Gives result bytes.now (F.seen c files.old) (F.seen c files.new) }
    ensures own { NoneRead F.seen files.old files.new }
    ensures cause { OnErr result (Rose (F.faults files.old ToErr) (F.faults files.new ToErr)) }
    ensures no_fault { OnOk result (NoneRose (F.faults files.old) (F.faults files.new)) }
    ensures no_others { OnlyRose of_err (F.faults files.old) (F.faults files.new) }
    ensures never_fall { NeverFall (F.faults files.old) (F.faults files.new) }
{
    let mut at = 0;
    while at < bytes.len() {
        at += files.err(&bytes[at..])?;
    }
    Ok(())
}

// The number in 8 hexadecimal digits.
fn hex_text(number: u32) -> [u8; 8]
    ensures { result ≡ hex_text number }
{
    let mut text = [0; 8];
    hex::encode_to_slice(number.to_be_bytes(), &mut text).unwrap();
    text
}

fn give_part<F: Files>(files: &mut F, part: &Part) -> Result<(), Failed>
    ensures seen { (c : Contents) → Gives result (part_text part.now) (F.seen c files.old) (F.seen c files.new) }
    ensures own { NoneRead F.seen files.old files.new }
    ensures cause { OnErr result (Rose (F.faults files.old ToErr) (F.faults files.new ToErr)) }
    ensures no_fault { OnOk result (NoneRose (F.faults files.old) (F.faults files.new)) }
    ensures no_others { OnlyRose of_err (F.faults files.old) (F.faults files.new) }
    ensures never_fall { NeverFall (F.faults files.old) (F.faults files.new) }
{
    match *part {
        Text(text) => give_bytes(files, text.as_bytes()),
        Number(number) => give_bytes(files, Buffer::new().format(number).as_bytes()),
        Magic(number) => give_bytes(files, &hex_text(number)),
    }
}

// Gives the parts to standard error, one after the other, up to a call that fails.
fn give_parts<F: Files>(files: &mut F, parts: &[Part])
    ensures { PrintsLine (concat (map part_text parts.now)) F.seen F.faults files.old files.new }
{
    for part in parts {
        if give_part(files, part).is_err() {
            return;
        }
    }
}

// Prints the line for a text that is no table.
fn print_table<F: Files>(files: &mut F, fault: TableFault)
    ensures { PrintsLine (table_line fault) F.seen F.faults files.old files.new }
{
    let (at, end) = (Text("table line "), Text("\n"));
    match fault {
        TableFault::BadLine { line } => {
            let line = Number(u64::from(line));
            give_parts(files, &[at, line, Text(": bad line"), end]);
        }
        TableFault::HostBits { line } => {
            let line = Number(u64::from(line));
            give_parts(files, &[at, line, Text(": host bits"), end]);
        }
        TableFault::BadPort { line, port } => {
            let (line, port) = (Number(u64::from(line)), Number(u64::from(port)));
            give_parts(files, &[at, line, Text(": port "), port, end]);
        }
        TableFault::BadLevel { line } => {
            let line = Number(u64::from(line));
            give_parts(files, &[at, line, Text(": level"), end]);
        }
        TableFault::Repeated { line, first } => {
            let (line, first) = (Number(u64::from(line)), Number(u64::from(first)));
            give_parts(files, &[at, line, Text(": repeats line "), first, end]);
        }
        TableFault::TooManyLines { count } => {
            let count = Number(u64::from(count));
            give_parts(files, &[Text("table: "), count, Text(" lines"), end]);
        }
        TableFault::OutOfMemory => print_memory(files),
    }
}

// Prints the line for the file of a port that is no capture.
fn print_capture<F: Files>(files: &mut F, port: u32, fault: PcapFault)
    ensures { PrintsLine (capture_line port fault) F.seen F.faults files.old files.new }
{
    let (file, port, colon) = (Text("capture "), Number(u64::from(port)), Text(": "));
    let (bytes, end) = (Text(" bytes"), Text("\n"));
    match fault {
        PcapFault::ShortHeader { len } => {
            let (what, len) = (Text("short header, "), Number(u64::from(len)));
            give_parts(files, &[file, port, colon, what, len, bytes, end]);
        }
        PcapFault::BadMagic { found } => {
            let (what, found) = (Text("bad magic "), Magic(found));
            give_parts(files, &[file, port, colon, what, found, end]);
        }
        PcapFault::BadVersion { major, minor } => {
            let (what, major) = (Text("version "), Number(u64::from(major)));
            let (dot, minor) = (Text("."), Number(u64::from(minor)));
            give_parts(files, &[file, port, colon, what, major, dot, minor, end]);
        }
        PcapFault::BadLink { found } => {
            let (what, found) = (Text("link type "), Number(u64::from(found)));
            give_parts(files, &[file, port, colon, what, found, end]);
        }
        PcapFault::CutRecord { at } => {
            let (what, at) = (Text("cut record at "), Number(u64::from(at)));
            give_parts(files, &[file, port, colon, what, at, end]);
        }
        PcapFault::LongRecord { at, len } => {
            let (what, at) = (Text("long record at "), Number(u64::from(at)));
            let (comma, len) = (Text(", "), Number(u64::from(len)));
            give_parts(
                files,
                &[file, port, colon, what, at, comma, len, bytes, end],
            );
        }
        PcapFault::OutOfMemory => {
            give_parts(files, &[file, port, colon, Text("out of memory"), end]);
        }
    }
}

fn print_refusal<F: Files>(files: &mut F, fault: PlanFault)
    ensures { PrintsLine (refusal_line fault) F.seen F.faults files.old files.new }
{
    match fault {
        PlanFault::Table(fault) => print_table(files, fault),
        PlanFault::Capture { port, fault } => print_capture(files, port, fault),
        PlanFault::MixedLink { first, other } => give_parts(
            files,
            &[
                Text("link types "),
                Number(u64::from(first)),
                Text(" and "),
                Number(u64::from(other)),
                Text("\n"),
            ],
        ),
        PlanFault::TooManySlots { port, slots } => give_parts(
            files,
            &[
                Text("too many slots: port "),
                Number(u64::from(port)),
                Text(" has "),
                Number(slots),
                Text("\n"),
            ],
        ),
        PlanFault::TooManyPackets { packets } => give_parts(
            files,
            &[Text("too many packets: "), Number(packets), Text("\n")],
        ),
        PlanFault::TooManyCells { cells } => give_parts(
            files,
            &[Text("too many cells: "), Number(cells), Text("\n")],
        ),
        PlanFault::OutOfMemory => print_memory(files),
    }
}

/// Gives standard error the usage line. Where a call fails, the rest of the line is left out.
pub fn print_usage<F: Files>(files: &mut F)
    ensures { PrintsLine usage_line F.seen F.faults files.old files.new }
{
    give_parts(files, &[Text(USAGE)]);
}

/// Gives standard error the line `out of memory`. Where a call fails, the rest of the line is left out.
pub fn print_memory<F: Files>(files: &mut F)
    ensures { PrintsLine memory_line F.seen F.faults files.old files.new }
{
    give_parts(files, &[Text(MEMORY)]);
}

// The name of a table or of a capture that the job reads; `gen` and `check` read none.
fn name_read(job: &Job, input: InputFile) -> &str
    ensures { result.now ≡ name_read (job_words job.now) input }
{
    match job {
        Job::Run(job) => input_name(&reads_of_run(job), input),
        Job::Firm(job) => input_name(&reads_of_firm(job), input),
        Job::Gen(_) | Job::Check(_) => "",
    }
}

// Prints the line for what the job was writing; only a `run` job writes files.
fn print_write_fault<F: Files>(files: &mut F, job: &Job, written: Written)
    ensures { PrintsLine (named_line (codes "write fault: ") (name_written (job_words job.now) written)) F.seen F.faults files.old files.new }
{
    let (what, end) = (Text("write fault: "), Text("\n"));
    match (job, written) {
        (Job::Run(job), Written::Output(port)) => {
            let (prefix, number) = (Text(job.prefix.as_str()), Number(u64::from(port)));
            give_parts(
                files,
                &[what, prefix, Text("."), number, Text(".pcap"), end],
            );
        }
        (Job::Run(job), Written::Report) => {
            let prefix = Text(job.prefix.as_str());
            give_parts(files, &[what, prefix, Text(".report"), end]);
        }
        (Job::Run(job), Written::Journal) => {
            let prefix = Text(job.prefix.as_str());
            give_parts(files, &[what, prefix, Text(".journal"), end]);
        }
        (Job::Run(job), Written::Packets) => {
            let prefix = Text(job.prefix.as_str());
            give_parts(files, &[what, prefix, Text(".packets.csv"), end]);
        }
        (_, Written::StandardOutput) => give_parts(files, &[what, Text("standard output"), end]),
        (Job::Gen(_) | Job::Check(_) | Job::Firm(_), _) => give_parts(files, &[what, end]),
    }
}

// Prints the line for a journal that is not lawful.
fn print_no<F: Files>(files: &mut F, slot: u32, reason: Reason)
    ensures { PrintsLine (concat (codes "no: slot " ∷ decimal slot ∷ (reason_parts reason ++ codes "\n" ∷ []))) F.seen F.faults files.old files.new }
{
    let (no, slot, end) = (Text("no: slot "), Number(u64::from(slot)), Text("\n"));
    match reason {
        Reason::AfterEnd => give_parts(files, &[no, slot, Text(" after end"), end]),
        Reason::More { card } => {
            let (what, card) = (Text(" more of card "), Number(u64::from(card)));
            give_parts(files, &[no, slot, what, card, end]);
        }
        Reason::Keeps { card } => {
            let (what, card) = (Text(" keeps of card "), Number(u64::from(card)));
            give_parts(files, &[no, slot, what, card, end]);
        }
        Reason::Output { output } => {
            let (what, output) = (Text(" output "), Number(u64::from(output)));
            give_parts(files, &[no, slot, what, output, end]);
        }
        Reason::NoEnd => give_parts(files, &[no, slot, Text(" no end"), end]),
    }
}

// Prints the line of the end of a check of this file. Yes has none.
fn print_check<F: Files>(files: &mut F, file: &str, ending: CheckEnding)
    ensures prints { PrintsLine (check_line file.now ending) F.seen F.faults files.old files.new }
    ensures no_fault { check_status ending ≡ 0 → NoneRose (F.faults files.old) (F.faults files.new) }
{
    let end = Text("\n");
    match ending {
        CheckEnding::Yes => {}
        CheckEnding::No { slot, reason } => print_no(files, slot, reason),
        CheckEnding::Bad { at } => {
            let at = Number(u64::from(at));
            give_parts(files, &[Text("journal: bad at "), at, end]);
        }
        CheckEnding::TooLong => give_parts(files, &[Text("too long: "), Text(file), end]),
        CheckEnding::ReadFault => give_parts(files, &[Text("read fault: "), Text(file), end]),
        CheckEnding::OutOfMemory => print_memory(files),
        CheckEnding::OutFault => {
            give_parts(
                files,
                &[Text("write fault: "), Text("standard output"), end],
            );
        }
    }
}

// The same for a job that is a check; no other has such an end.
fn print_checked<F: Files>(files: &mut F, job: &Job, ending: CheckEnding)
    ensures prints { PrintsLine (checked_line (job_words job.now) ending) F.seen F.faults files.old files.new }
    ensures no_fault { check_status ending ≡ 0 → NoneRose (F.faults files.old) (F.faults files.new) }
{
    if let Job::Check(job) = job {
        print_check(files, job.file.as_str(), ending);
    }
}

/// Gives standard error the line of an ending, none where the status is 0. Where a call fails, the rest of the line is
/// left out.
pub fn print_line<F: Files>(files: &mut F, job: &Job, ending: Ending)
    ensures prints { PrintsLine (line_of (job_words job.now) ending) F.seen F.faults files.old files.new }
    ensures no_fault { status_of ending ≡ 0 → NoneRose (F.faults files.old) (F.faults files.new) }
{
    match ending {
        Ending::Done => {}
        Ending::Usage => print_usage(files),
        Ending::ReadFault(input) => {
            let name = Text(name_read(job, input));
            give_parts(files, &[Text("read fault: "), name, Text("\n")]);
        }
        Ending::TooLong(input) => {
            let name = Text(name_read(job, input));
            give_parts(files, &[Text("too long: "), name, Text("\n")]);
        }
        Ending::Refused(fault) => print_refusal(files, fault),
        Ending::JournalTooLong(size) => {
            let size = Number(size);
            give_parts(files, &[Text("journal too long: "), size, Text("\n")]);
        }
        Ending::PacketsTooLong(size) => {
            let size = Number(size);
            give_parts(files, &[Text("packets too long: "), size, Text("\n")]);
        }
        Ending::OutOfMemory => print_memory(files),
        Ending::WriteFault(written) => print_write_fault(files, job, written),
        Ending::Checked(ending) => print_checked(files, job, ending),
    }
}
