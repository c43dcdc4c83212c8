ghost use Rattle.std.specs.Prelude.{◌≡◌, ◌≢◌, ℕ, ◌≤◌, ◌<◌, ◌+◌, Ok, Err, Some, None, ◌++◌, length, IfSome, IfOk, IfErr, MatchResult};
ghost use Rattle.forward_table.specs.Targets.{has_host_bits, HasLength, IsPrefix};
ghost use Rattle.forward_table.specs.Routes.{IsFan, IsRouteOf, AreRoutesOf};
ghost use Rattle.forward_table.specs.Reading.{route_line_count, is_route_line, checked, line_of, fault_of, route_line_of, reading_of};

use crate::faults::TableFault;
use crate::forms::{Form, form_of};
use crate::limits::MAX_LINES;
use crate::lookup::Table;
use crate::route_lines::{ADDRESS_BITS, Route, RouteLine, Target, without_host_bits};
use crate::text::{first_line, route_words};
use rotating_pick::{LEVELS, MAX_FILE_BYTES, MAX_PORTS};
use std::alloc::Global;

/// Reads a table's text for a switch of `n` ports, 1 to 64, of at most 16,777,216 bytes.
///
/// The lines are parted by line feeds, and numbered from 1, all lines counted. One carriage return at the
/// end of a line is taken off. Blanks are spaces and tabs, and those at both ends do not matter. An
/// empty line, and one that begins with `#`, mean nothing; every other line is a route line:
///
/// ```text
/// line    = target blanks ports [blanks level]
/// target  = "*" | octet "." octet "." octet "." octet "/" length
/// octet   = number of at most 255
/// length  = number of at most 32
/// ports   = number *("," number)
/// level   = number
/// number  = 1 to 3 digits, with no leading zero except for "0" itself
/// ```
///
/// A level that is absent is 0, and a port named twice counts once. Answers a table exactly where the
/// text has no fault, unless memory runs out. `TooManyLines` comes exactly where the text has more than
/// 4,096 route lines. Otherwise the first line with a fault is answered, and within a line the first of
/// `BadLine`, `HostBits`, `BadPort`, `BadLevel` and `Repeated`. `OutOfMemory` may come in place of any
/// answer.
#[tactic(auto, unfolding(crate::specs::Reading::reading_of))]
pub fn read_table(alloc: Global, text: &[u8], n: u32) -> Result<Table, TableFault>
    requires some { 0 < n }
    requires size { n ≤ MAX_PORTS }
    requires length { length text.now ≤ MAX_FILE_BYTES }
    ensures table { IfOk result (λ table. reading_of n text.now ≡ Ok table) }
    ensures fault { IfErr result (λ fault. fault ≢ TableFault.OutOfMemory → reading_of n text.now ≡ Err fault) }

    // The fan-outs have one port at least and are among the n ports, and the levels are those of a switch.
    ensures routes { IfOk result (AreRoutesOf n) }
{
    let count = route_line_count(text);
    if count > MAX_LINES {
        return Err(TableFault::TooManyLines { count });
    }
    let mut table = Table::empty(alloc);
    let mut number = 0;
    let mut rest = text;
    while let Some((line, after)) = first_line(rest) {
        number += 1;
        table = read_line(table, n, number, line)?;
        rest = after;
    }
    Ok(table)
}

// The table with the line of this number, or the fault of that line.
fn read_line(table: Table, n: u32, number: u32, line: &[u8]) -> Result<Table, TableFault>
    requires { n ≤ MAX_PORTS }
    ensures ok { IfOk result (λ new. (fault_of n table number line.now ≡ None) × (new ≡ table ++ route_line_of n number line.now)) }
    ensures fault { IfErr result (λ fault. fault ≢ TableFault.OutOfMemory → fault_of n table number line.now ≡ Some fault) }
    ensures routes { AreRoutesOf n table → IfOk result (AreRoutesOf n) }
{
    match line_of(n, number, line) {
        Ok(Some(found)) => table.with_line(found),
        Ok(None) => Ok(table),
        Err(fault) => Err(fault),
    }
}

// Whether the line is a route line, be it of the form or not.
#[tactic(auto, unfolding(crate::specs::Reading::is_route_line))]
fn is_route_line(line: &[u8]) -> bool
    ensures { result ≡ is_route_line line.now }
{
    route_words(line).is_some()
}

// How many route lines the text has.
fn route_line_count(text: &[u8]) -> u32
    requires { length text.now ≤ MAX_FILE_BYTES }
    ensures { result ≡ route_line_count text.now }
{
    let mut count = 0;
    let mut rest = text;
    while let Some((line, after)) = first_line(rest) {
        if is_route_line(line) {
            count += 1;
        }
        rest = after;
    }
    count
}

// What the line of this number means for a switch of `n` ports, 1 to 64: nothing, or a route line.
#[tactic(auto, unfolding(crate::specs::Reading::line_of))]
fn line_of(n: u32, number: u32, line: &[u8]) -> Result<Option<RouteLine>, TableFault>
    requires { n ≤ MAX_PORTS }
    ensures meaning { result ≡ line_of n number line.now }
    ensures prefix { IfOk result (λ found. IfSome found (λ line. IsPrefix line.target)) }
    ensures route { IfOk result (λ found. IfSome found (λ line. IsRouteOf n line.route)) }
{
    let Some((target, rest)) = route_words(line) else {
        return Ok(None);
    };
    match form_of(n, target, rest) {
        Some(form) => checked(number, &form),
        None => Err(TableFault::BadLine { line: number }),
    }
}

// The route line of a form, or its fault.
#[tactic(auto, unfolding(crate::specs::Reading::checked))]
fn checked(number: u32, form: &Form) -> Result<Option<RouteLine>, TableFault>
    requires { HasLength form.now.target }
    ensures meaning { result ≡ checked number form.now }
    ensures prefix { IfOk result (λ found. IfSome found (λ line. IsPrefix line.target)) }
    ensures route { (n : ℕ) → IfOk form.now.fan (IsFan n) → IfOk result (λ found. IfSome found (λ line. IsRouteOf n line.route)) }
{
    if has_host_bits(&form.target) {
        return Err(TableFault::HostBits { line: number });
    }
    let fan = form
        .fan
        .map_err(|port| TableFault::BadPort { line: number, port })?;
    if form.level >= LEVELS {
        return Err(TableFault::BadLevel { line: number });
    }
    Ok(Some(RouteLine {
        number,
        target: form.target,
        route: Route {
            fan,
            level: form.level as u8,
        },
    }))
}

// Whether a bit of the address beyond the length is set.
fn has_host_bits(target: &Target) -> bool
    ensures { result ≡ has_host_bits target.now }
{
    match target {
        Target::Fallback => false,
        Target::Prefix { length, address } => {
            without_host_bits(*address, ADDRESS_BITS.saturating_sub(*length)) != *address
        }
    }
}
