//! Rows of slots of iSLIP for one level of unicast:
//! `NAME N ROUNDS ASKS GRANT ACCEPT -> FED USED FIRST LAST_ADDED GRANT_AFTER ACCEPT_AFTER`.
ghost use Rattle.std.specs.Prelude.{◌≡◌, ℕ, ◌<◌, ◌≤◌, length, slice_index, All};
ghost use Rattle.rotating_pick.specs.PortSets.{IsAmong};

use crate::fields::{port_sets, port_table};
use crate::texts::{choices_text, numbers_text};
use islip_rounds::{UniMatch, UniPointers, islip_slot};
use rotating_pick::{MAX_PORTS, MAX_ROUNDS, Ports};
use std::alloc::{AllocError, Global};
use test_vectors::{NoAnswer, Row, number, port_count, words};

/// The row that a line is.
pub fn row(alloc: Global, line: &str) -> Result<Row, AllocError> {
    match line.split_once(" -> ") {
        Some((question, stated)) => Row::new(alloc, stated, answer(alloc, question)),
        None => Row::unread(alloc, line),
    }
}

fn answer(alloc: Global, question: &str) -> Result<String, NoAnswer> {
    let words = words(alloc, question)?;
    let [_, fields @ ..] = words.as_slice() else {
        return Err(NoAnswer);
    };
    slot_answer(alloc, fields)
}

fn slot_answer(alloc: Global, fields: &[&str]) -> Result<String, NoAnswer> {
    let [n, rounds, asks, grant, accept] = fields else {
        return Err(NoAnswer);
    };
    let n = port_count(n)?;
    let rounds = number(rounds)?;
    let asks = port_sets(alloc, n, asks)?;
    let mut pointers = UniPointers {
        grant: port_table(alloc, n, grant)?,
        accept: port_table(alloc, n, accept)?,
    };
    slot(alloc, n, rounds, asks.as_slice(), &mut pointers)
}

fn slot(
    alloc: Global,
    n: u32,
    rounds: u32,
    asks: &[Ports],
    pointers: &mut UniPointers,
) -> Result<String, NoAnswer>
    requires some { 0 < n }
    requires size { n ≤ MAX_PORTS }
    requires asks { length asks.now ≡ n }
    requires among { All (IsAmong n) asks.now }
    requires grant { (j : ℕ) → slice_index pointers.old.grant j < n }
    requires accept { (i : ℕ) → slice_index pointers.old.accept i < n }
{
    if rounds == 0 || rounds > MAX_ROUNDS {
        return Err(NoAnswer);
    }
    let ports = n as usize;
    let mut matched = UniMatch { fed: [None; 64] };
    let numbers = islip_slot(n, rounds, asks, pointers, &mut matched);
    let fed = choices_text(alloc, &matched.fed[..ports])?;
    let grant = numbers_text(alloc, &pointers.grant[..ports])?;
    let accept = numbers_text(alloc, &pointers.accept[..ports])?;
    let used = numbers.used;
    let first = numbers.first;
    let last_added = numbers.last_added;
    Ok(format!(in alloc; "{fed} {used} {first} {last_added} {grant} {accept}")?)
}
