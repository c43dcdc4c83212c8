//! The fields of a slot of four levels and both kinds: rows of posted sets, pointers and matches.
ghost use Rattle.std.specs.Prelude.{◌≡◌, ◌<◌, ◌≤◌, IfOk};
ghost use Rattle.slot_match.specs.Rows.{AreWithin};

use crate::fields::port_table;
use crate::texts::{add_item, kind_letter, numbers_text};
use eslip_rounds::Refused;
use islip_rounds::RoundsUsed;
use pointer_state::{PointerTables, Pointers};
use rotating_pick::{Kind, LEVEL_COUNT, LEVELS, MAX_PORTS, PORT_COUNT, contains, with};
use scheduler_names::SchedulerName;
use slot_match::{Fed, Match, Row, are_within};
use std::alloc::{AllocError, Global};
use test_vectors::{NoAnswer, byte, number, port_set};

/// Tables of pointers that are all at port 0.
pub const AT_ZERO: PointerTables = PointerTables {
    grant: [[0; PORT_COUNT]; LEVEL_COUNT],
    accept: [[0; PORT_COUNT]; LEVEL_COUNT],
    shared: [0; LEVEL_COUNT],
};

/// The rows of `n` inputs, parted by `;`: each is `.` for an empty one, or sets parted by `+`, as
/// `u2=0x5` for unicast of level 2.
pub fn posted_rows(alloc: Global, n: u32, text: &str) -> Result<Vec<Row>, NoAnswer>
    ensures { IfOk result (λ rows. AreWithin n rows.items) }
{
    let mut rows = Vec::new(alloc);
    for row in text.split(';') {
        rows.push(posted_row(row)?)?;
    }
    if are_within(n, rows.as_slice()) {
        Ok(rows)
    } else {
        Err(NoAnswer)
    }
}

fn posted_row(text: &str) -> Result<Row, NoAnswer> {
    let mut row = Row::empty();
    if text == "." {
        return Ok(row);
    }
    for part in text.split('+') {
        let Some((queue, set)) = part.split_once('=') else {
            return Err(NoAnswer);
        };
        let set = port_set(set)?;
        match queue {
            "u0" => row.uni[0] = set,
            "u1" => row.uni[1] = set,
            "u2" => row.uni[2] = set,
            "u3" => row.uni[3] = set,
            "m0" => row.multi[0] = set,
            "m1" => row.multi[1] = set,
            "m2" => row.multi[2] = set,
            "m3" => row.multi[3] = set,
            _ => return Err(NoAnswer),
        }
    }
    Ok(row)
}

/// Tables of ports for four levels, parted by `/`.
pub fn level_tables(
    alloc: Global,
    n: u32,
    text: &str,
) -> Result<[[u32; PORT_COUNT]; LEVEL_COUNT], NoAnswer>
    requires some { 0 < n }
    requires size { n ≤ MAX_PORTS }
{
    let tables: Vec<&str> = text.split('/').collect(alloc)?;
    let [first, second, third, fourth] = tables.as_slice() else {
        return Err(NoAnswer);
    };
    Ok([
        port_table(alloc, n, first)?,
        port_table(alloc, n, second)?,
        port_table(alloc, n, third)?,
        port_table(alloc, n, fourth)?,
    ])
}

/// The pointers of `n` ports that are where the tables say.
pub fn pointers(n: u32, tables: &PointerTables) -> Result<Pointers, NoAnswer>
    ensures { IfOk result (λ p. p.ports ≡ n) }
{
    if tables.is_in_range(n) {
        Ok(Pointers::at_tables(n, tables))
    } else {
        Err(NoAnswer)
    }
}

/// The scheduler of the name.
pub fn scheduler_named(name: &str) -> Result<SchedulerName, NoAnswer> {
    match SchedulerName::named(name) {
        Some(scheduler) => Ok(scheduler),
        None => Err(NoAnswer),
    }
}

/// The match of a switch of `n` ports that is stated: for each output what feeds it, as `1:0u`, or `-`.
pub fn stated_match(alloc: Global, n: u32, text: &str) -> Result<Match, NoAnswer>
    requires some { 0 < n }
    requires size { n ≤ MAX_PORTS }
{
    let mut matched = Match::new(n);
    let items: Vec<&str> = text.split(',').collect(alloc)?;
    if items.len() != n as usize {
        return Err(NoAnswer);
    }
    for output in 0..n {
        let Some(item) = items.get(output as usize) else {
            return Err(NoAnswer);
        };
        if *item != "-" {
            add_fed(&mut matched, output, item)?;
        }
    }
    Ok(matched)
}

// The output is fed as the text says.
fn add_fed(matched: &mut Match, output: u32, text: &str) -> Result<(), NoAnswer> {
    let Some((input, part)) = text.split_once(':') else {
        return Err(NoAnswer);
    };
    let input = number(input)?;
    let (level, kind) = match (part.strip_suffix("u"), part.strip_suffix("m")) {
        (Some(level), _) => (byte(level)?, Kind::Uni),
        (_, Some(level)) => (byte(level)?, Kind::Multi),
        _ => return Err(NoAnswer),
    };
    if output >= MAX_PORTS || input >= matched.ports() || u32::from(level) >= LEVELS {
        return Err(NoAnswer);
    }
    let outputs = with(0, output);
    if !matched.may_add(input, outputs, level, kind) {
        return Err(NoAnswer);
    }
    matched.add(input, outputs, level, kind);
    Ok(())
}

/// For each output what feeds it, as `1:0u`, or `-`.
pub fn match_text(alloc: Global, matched: &Match) -> Result<String, AllocError> {
    let mut list = String::new(alloc);
    for output in 0..matched.ports() {
        let item = fed_text(alloc, matched.fed(output))?;
        add_item(&mut list, item.as_str())?;
    }
    Ok(list)
}

fn fed_text(alloc: Global, fed: Option<Fed>) -> Result<String, AllocError> {
    match fed {
        Some(fed) => {
            let input = fed.input;
            let level = fed.level;
            let kind = kind_letter(fed.kind);
            format!(in alloc; "{input}:{level}{kind}")
        }
        None => String::from_str(alloc, "-"),
    }
}

/// The grants that were refused, as `OUTPUT:INPUT:LEVEL`, parted by commas; `-` for none.
pub fn refused_text(alloc: Global, refused: &Refused) -> Result<String, AllocError> {
    if refused.outputs == 0 {
        return String::from_str(alloc, "-");
    }
    let mut list = String::new(alloc);
    for output in 0..PORT_COUNT {
        if contains(refused.outputs, output as u32) {
            let input = refused.inputs[output];
            let level = refused.levels[output];
            let item = format!(in alloc; "{output}:{input}:{level}")?;
            add_item(&mut list, item.as_str())?;
        }
    }
    Ok(list)
}

/// `USED FIRST LAST_ADDED`.
pub fn rounds_text(alloc: Global, numbers: RoundsUsed) -> Result<String, AllocError> {
    let used = numbers.used;
    let first = numbers.first;
    let last_added = numbers.last_added;
    format!(in alloc; "{used} {first} {last_added}")
}

/// A table of `n` ports for each of four levels, parted by `/`.
pub fn level_tables_text(
    alloc: Global,
    n: u32,
    tables: &[[u32; PORT_COUNT]; LEVEL_COUNT],
) -> Result<String, AllocError>
    requires { n ≤ MAX_PORTS }
{
    let ports = n as usize;
    let first = numbers_text(alloc, &tables[0][..ports])?;
    let second = numbers_text(alloc, &tables[1][..ports])?;
    let third = numbers_text(alloc, &tables[2][..ports])?;
    let fourth = numbers_text(alloc, &tables[3][..ports])?;
    format!(in alloc; "{first}/{second}/{third}/{fourth}")
}

/// The shared pointers of four levels, parted by commas.
pub fn shared_text(alloc: Global, pointers: &Pointers) -> Result<String, AllocError> {
    let shared = [
        pointers.shared(0),
        pointers.shared(1),
        pointers.shared(2),
        pointers.shared(3),
    ];
    numbers_text(alloc, &shared)
}
