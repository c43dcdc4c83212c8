//! How long the parts of a switch take: the decision of a slot and the noting of waits, the board, a line card, and
//! whole runs with their plans.
//!
//! `benchmarks WORD` times what the word names: `slots`, `board`, `cards` or `jobs`; `all`, or no word, times all of
//! them. The times go to standard error, which no stored run is compared with. The status is 2 for other words, else 0.
#![tactic(auto)]

mod board;
mod captures;
mod cards;
mod copies;
mod decisions;
mod plans;
mod reading;
mod runs;
mod waits;

use std::process::ExitCode;
use std::rt::Env;
use std::thread::Threads;
use std::time::Clock;
use std::{env, io};

const USAGE: &str = "usage: benchmarks [slots|board|cards|jobs|all]";

/// The status where the words are no such.
const MISUSED: u8 = 2;

fn time_slots<R: Clock + Eprint + AllocGlobal>(rt: &R) -> io::Result<()> {
    decisions::time_decisions(rt)?;
    waits::time_meters(rt)
}

fn time_jobs<R: Threads + Sync + Clock + Eprint + AllocGlobal>(rt: &R) -> io::Result<()> {
    runs::time_runs(rt)?;
    reading::time_reading(rt)
}

fn time_all<R: Threads + Sync + Clock + Eprint + AllocGlobal>(rt: &R) -> io::Result<()> {
    time_slots(rt)?;
    board::time_all_boards(rt)?;
    cards::time_cards(rt)?;
    time_jobs(rt)
}

fn main(rt: HostRuntime) -> io::Result<ExitCode> {
    let mut words = env::args(&rt)?.skip(1);
    let (word, more) = (words.next(), words.next());
    match (word.as_deref().unwrap_or("all"), more) {
        ("slots", None) => time_slots(&rt)?,
        ("board", None) => board::time_all_boards(&rt)?,
        ("cards", None) => cards::time_cards(&rt)?,
        ("jobs", None) => time_jobs(&rt)?,
        ("all", None) => time_all(&rt)?,
        _ => {
            eprintln!(&rt; "{USAGE}")?;
            return Ok(ExitCode::from(MISUSED));
        }
    }
    Ok(ExitCode::SUCCESS)
}
