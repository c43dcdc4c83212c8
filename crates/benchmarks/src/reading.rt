//! How long the plan of captures takes beside a reading of their bytes, and beside adding them up.
use crate::captures::{Load, captures_of, table_of};
use crate::copies::Copies;
use crate::plans::planned;
use std::io;
use std::thread::Threads;
use std::time::{Clock, Instant};

/// What comes to the ports: 4,617 packets of 28 cells are the most within the limit of a port's slots.
const LOAD: Load = Load {
    ports: 16,
    packets: 4_617,
    len: 1_500,
};

/// How often the reading is timed. The least times count, since they were disturbed least.
const READINGS: u32 = 7;

/// Workers of the plan.
const WORKERS: u32 = 1;

/// The nanoseconds of a reading.
#[derive(Clone, Copy)]
struct Reading {
    // To plan the captures.
    plan: u128,
    // To read their bytes from files in memory into buffers, on one thread.
    copy: u128,
    // To add up their bytes on one thread.
    sum: u128,
}

// The sum of the bytes of a file.
fn bytes_sum(file: &[u8]) -> u64 {
    let mut sum: u64 = 0;
    for byte in file {
        sum = sum.wrapping_add(u64::from(*byte));
    }
    sum
}

// The sum of the bytes of all files.
fn files_sum(files: &[Vec<u8>]) -> u64 {
    let mut sum: u64 = 0;
    for file in files {
        sum = sum.wrapping_add(bytes_sum(file));
    }
    sum
}

// Times the sum of the files' bytes, and tells the sum, so that it is made.
fn time_sum<R: Clock + Eprint>(rt: &R, files: &[Vec<u8>]) -> io::Result<u128> {
    let begin = Instant::now(rt)?;
    let sum = files_sum(files);
    let end = Instant::now(rt)?;
    eprintln!(rt; "the bytes of {} captures add up to {sum}", files.len())?;
    Ok(end.duration_since(begin).as_nanos())
}

// Times the reading of the files' bytes, and tells how many were read.
fn time_copy<R: Clock + Eprint>(rt: &R, copies: &mut Copies) -> io::Result<u128> {
    let begin = Instant::now(rt)?;
    let count = copies.read();
    let end = Instant::now(rt)?;
    eprintln!(rt; "the captures have {count} bytes")?;
    Ok(end.duration_since(begin).as_nanos())
}

// Times a plan of the files, and tells what it answers.
fn time_plan<R: Threads + Sync + Clock + Eprint + AllocGlobal>(
    rt: &R,
    table: Vec<u8>,
    files: Vec<Vec<u8>>,
) -> io::Result<u128> {
    let begin = Instant::now(rt)?;
    let answer = planned(rt, rt.alloc(), WORKERS, table, files);
    let end = Instant::now(rt)?;
    match answer {
        None => eprintln!(rt; "the captures are too many or too large")?,
        Some(Ok(_)) => eprintln!(rt; "the captures have a plan")?,
        Some(Err(fault)) => eprintln!(rt; "the captures are read, and refused: {fault}")?,
    }
    Ok(end.duration_since(begin).as_nanos())
}

// Times a reading of new captures, or answers None where there was no memory for them.
fn time_one<R: Threads + Sync + Clock + Eprint + AllocGlobal>(
    rt: &R,
) -> io::Result<Option<Reading>> {
    let Ok(table) = table_of(rt.alloc(), LOAD.ports) else {
        return Ok(None);
    };
    let Ok(files) = captures_of(rt.alloc(), &LOAD) else {
        return Ok(None);
    };
    let sum = time_sum(rt, &files)?;
    let Some(mut copies) = Copies::new(rt.alloc(), files) else {
        return Ok(None);
    };
    let copy = time_copy(rt, &mut copies)?;
    let plan = time_plan(rt, table, copies.into_buffers())?;
    Ok(Some(Reading { plan, copy, sum }))
}

// What of a time another is, in percent.
fn percent(part: u128, whole: u128) -> u128 {
    part.saturating_mul(100) / whole.max(1)
}

/// Tells the time to plan 16 captures of some 7,000,000 bytes, that to read their bytes from files in memory,
/// and that to add them up.
pub(crate) fn time_reading<R: Threads + Sync + Clock + Eprint + AllocGlobal>(
    rt: &R,
) -> io::Result<()> {
    let mut plan = u128::MAX;
    let mut copy = u128::MAX;
    let mut sum = u128::MAX;
    for _ in 0..READINGS {
        let Some(reading) = time_one(rt)? else {
            return eprintln!(rt; "no memory for captures");
        };
        plan = plan.min(reading.plan);
        copy = copy.min(reading.copy);
        sum = sum.min(reading.sum);
    }
    let (of_copy, of_sum) = (percent(plan, copy), percent(plan, sum));
    let (plan, copy, sum) = (plan / 1_000, copy / 1_000, sum / 1_000);
    eprintln!(rt; "a plan takes {plan} us")?;
    eprintln!(rt; "reading the bytes takes {copy} us: the plan {of_copy} percent of it")?;
    eprintln!(rt; "adding up the bytes takes {sum} us: the plan {of_sum} percent of it")
}
