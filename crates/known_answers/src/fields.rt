//! The fields of a row, read: numbers, tables and sets of ports, kinds, bytes and names.
ghost use Rattle.std.specs.Prelude.{◌≡◌, ℕ, ◌<◌, ◌≤◌, length, slice_index, All, IfOk, IsTrue};
ghost use Rattle.rotating_pick.specs.PortSets.{IsAmong};

use pcap_records::Link;
use rotating_pick::{Kind, MAX_PORTS, PORT_COUNT, Ports, is_among};
use std::alloc::{AllocError, Global};
use test_vectors::{NoAnswer, number, port_set};

/// A decimal number that can be long.
pub fn long_number(text: &str) -> Result<u64, NoAnswer> {
    match text.parse::<u64>() {
        Ok(number) => Ok(number),
        Err(_) => Err(NoAnswer),
    }
}

/// Numbers that are parted by commas.
pub fn numbers(alloc: Global, text: &str) -> Result<Vec<u32>, NoAnswer> {
    let mut numbers = Vec::new(alloc);
    for word in text.split(',') {
        numbers.push(number(word)?)?;
    }
    Ok(numbers)
}

/// As many sets as there are ports, parted by commas, each of the `n` ports.
pub fn port_sets(alloc: Global, n: u32, text: &str) -> Result<Vec<Ports>, NoAnswer>
    requires some { 0 < n }
    requires size { n ≤ MAX_PORTS }
    ensures count { IfOk result (λ sets. length sets.items ≡ n) }
    ensures among { IfOk result (λ sets. All (IsAmong n) sets.items) }
{
    let mut sets = Vec::new(alloc);
    for word in text.split(',') {
        sets.push(port_set(word)?)?;
    }
    if sets.len() != n as usize || !are_among(n, sets.as_slice()) {
        return Err(NoAnswer);
    }
    Ok(sets)
}

// Whether each set is of the `n` ports.
fn are_among(n: u32, sets: &[Ports]) -> bool
    requires some { 0 < n }
    requires size { n ≤ MAX_PORTS }
    ensures { IsTrue result → All (IsAmong n) sets.now }
{
    sets.iter().all(|set| is_among(n, *set))
}

/// A table of ports, one for each of the `n` ports, parted by commas.
pub fn port_table(alloc: Global, n: u32, text: &str) -> Result<[u32; PORT_COUNT], NoAnswer>
    requires some { 0 < n }
    requires size { n ≤ MAX_PORTS }
    ensures { IfOk result (λ table. (k : ℕ) → slice_index table k < n) }
{
    let list = numbers(alloc, text)?;
    if list.len() != n as usize {
        return Err(NoAnswer);
    }
    table_of(n, list.as_slice())
}

fn table_of(n: u32, list: &[u32]) -> Result<[u32; PORT_COUNT], NoAnswer>
    requires some { 0 < n }
    requires size { n ≤ MAX_PORTS }
    ensures { IfOk result (λ table. (k : ℕ) → slice_index table k < n) }
{
    let mut table = [0; PORT_COUNT];
    for k in 0..PORT_COUNT {
        let port = list.get(k).copied().unwrap_or(0);
        if port >= n {
            return Err(NoAnswer);
        }
        table[k] = port;
    }
    Ok(table)
}

/// A kind: `u` or `m`.
pub fn kind(text: &str) -> Result<Kind, NoAnswer> {
    match text {
        "u" => Ok(Kind::Uni),
        "m" => Ok(Kind::Multi),
        _ => Err(NoAnswer),
    }
}

/// Bytes in hexadecimal, `-` for none.
pub fn bytes(alloc: Global, text: &str) -> Result<Vec<u8>, NoAnswer> {
    if text == "-" {
        return Ok(Vec::new(alloc));
    }
    match hex::decode(alloc, text) {
        Ok(bytes) => Ok(bytes),
        Err(_) => Err(NoAnswer),
    }
}

/// Whether a capture counts its fractions in nanoseconds: `nano` or `micro`.
pub fn unit(text: &str) -> Result<bool, NoAnswer> {
    match text {
        "nano" => Ok(true),
        "micro" => Ok(false),
        _ => Err(NoAnswer),
    }
}

/// A link type by its number.
pub fn link(text: &str) -> Result<Link, NoAnswer> {
    match text {
        "1" => Ok(Link::Ethernet),
        "101" => Ok(Link::RawIp),
        _ => Err(NoAnswer),
    }
}
