ghost use Rattle.std.specs.Prelude.{◌≡◌, ℕ, ◌<◌, ◌≤◌, ◌↔◌, ◌⊎◌, ◌≢◌, length, replicate, slice_index, slice_set, IfOk};
ghost use Rattle.rotating_pick.specs.PortSets.{Has};
ghost use Rattle.slot_match.specs.Rows.{empty_row};
ghost use Rattle.eslip_rounds.specs.OneLevel.{AreUnicastOf};
ghost use Rattle.unicast_slots.specs.RowSteps.{AreAsking, AsksNoMore, AsksToo, IsAsked};

use rotating_pick::{MAX_PORTS, PORT_COUNT, Ports, is_empty, with, without};
use slot_match::Row;
use std::alloc::{AllocError, Global};
use std::marker::Model;

/// The row of each input of a switch, of unicast of level 0 alone, kept by columns too. An input begins or ends to ask
/// for an output in constant time, and nothing but `make` takes memory.
///
/// Contracts see the rows, one for each input.
#[derive(Drop)]
pub struct UnicastRows {
    rows: Vec<Row>,
    // For each output the inputs that ask for it.
    columns: [Ports; PORT_COUNT],
    // The outputs that some input asks for.
    asked: Ports,
}

impl Model for UnicastRows {
    ghost use Rattle.std.specs.Prelude.{List};
    ghost use Rattle.slot_match.specs.declared.rows.Row.{Row};
    ghost use Rattle.unicast_slots.specs.RowSteps.{AreKept};

    ghost Value = { List Row };

    ghost view = { λ r. r.rows.items };

    ghost invariant = { λ r. AreKept r.rows.items r.columns r.asked };
}

impl UnicastRows {
    /// Those of a switch of `n` ports, at most 64, whose inputs ask for no output. It takes all memory that they need.
    pub fn make(alloc: Global, n: u32) -> Result<UnicastRows, AllocError>
        requires { n ≤ MAX_PORTS }
        ensures { IfOk result (λ rows. rows ≡ replicate n empty_row) }
    {
        Ok(UnicastRows {
            rows: empty_rows(alloc, n)?,
            columns: empty_columns(),
            asked: 0,
        })
    }

    /// The rows.
    pub fn rows(&self) -> &[Row]
        ensures { result.now ≡ self.now }
    {
        &self.rows
    }

    /// The input asks for the output, one of 64.
    pub fn ask(&mut self, input: u32, output: u32)
        requires input { input < length self.old }
        requires output { output < MAX_PORTS }
        ensures { AsksToo self.old self.new input output }
    {
        ask(&mut self.rows, input, output);
        enter(&mut self.columns, &mut self.asked, input, output);
    }

    /// The input asks for the output, one of 64, no more.
    pub fn ask_no_more(&mut self, input: u32, output: u32)
        requires input { input < length self.old }
        requires output { output < MAX_PORTS }
        ensures { AsksNoMore self.old self.new input output }
    {
        ask_no_more(&mut self.rows, input, output);
        leave(&mut self.columns, &mut self.asked, input, output);
    }

    // The outputs that some input asks for.
    pub(crate) fn asked(&self) -> Ports
        ensures { (j : ℕ) → Has result j ↔ ((j < MAX_PORTS) × ((i : ℕ) × IsAsked self.now i j)) }
    {
        self.asked
    }

    // The inputs that ask for the output.
    pub(crate) fn asking(&self, output: u32) -> Ports
        requires { output < MAX_PORTS }
        ensures { AreAsking self.now output result }
    {
        self.columns[output as usize]
    }

    /// States that no row names an output at another level or as multicast.
    pub fn are_unicast(&self)
        ensures { AreUnicastOf 0 self.now }
    {
        // Reads a field: that tells the proof what the type says of its value.
        let _ = &self.asked;
    }
}

// The row of each input that asks for no output.
fn empty_rows(alloc: Global, n: u32) -> Result<Vec<Row>, AllocError>
    ensures { IfOk result (λ rows. rows.items ≡ replicate n empty_row) }
{
    let mut rows = Vec::with_capacity(alloc, n as usize)?;
    for _ in 0..n {
        rows.push(Row::empty())?;
    }
    Ok(rows)
}

// The columns of rows that name no output.
fn empty_columns() -> [Ports; PORT_COUNT]
    ensures { result ≡ replicate MAX_PORTS 0 }
{
    [0; PORT_COUNT]
}

// The row of the input names the output.
fn ask(rows: &mut Vec<Row>, input: u32, output: u32)
    requires input { input < length rows.old.items }
    requires output { output < MAX_PORTS }
    ensures { AsksToo rows.old.items rows.new.items input output }
{
    let row = &mut rows[input as usize];
    row.uni[0] = with(row.uni[0], output);
}

// The row of the input names the output no more.
fn ask_no_more(rows: &mut Vec<Row>, input: u32, output: u32)
    requires input { input < length rows.old.items }
    requires output { output < MAX_PORTS }
    ensures { AsksNoMore rows.old.items rows.new.items input output }
{
    let row = &mut rows[input as usize];
    row.uni[0] = without(row.uni[0], output);
}

// The input enters the column of the output.
fn enter(columns: &mut [Ports; PORT_COUNT], asked: &mut Ports, input: u32, output: u32)
    requires input { input < MAX_PORTS }
    requires output { output < MAX_PORTS }
    ensures column { (column : ℕ) × (columns.new ≡ slice_set columns.old output column)
        × ((i : ℕ) → Has column i ↔ ((i ≡ input) ⊎ Has (slice_index columns.old output) i)) }
    ensures asked { (j : ℕ) → Has asked.new j ↔ ((j ≡ output) ⊎ Has asked.old j) }
{
    let at = output as usize;
    columns[at] = with(columns[at], input);
    *asked = with(*asked, output);
}

// The input leaves the column of the output.
fn leave(columns: &mut [Ports; PORT_COUNT], asked: &mut Ports, input: u32, output: u32)
    requires input { input < MAX_PORTS }
    requires output { output < MAX_PORTS }
    ensures column { (column : ℕ) × (columns.new ≡ slice_set columns.old output column)
        × ((i : ℕ) → Has column i ↔ ((i ≢ input) × Has (slice_index columns.old output) i))
        × ((j : ℕ) → Has asked.new j ↔ (Has asked.old j × (j ≡ output → column ≢ 0))) }
{
    let at = output as usize;
    let column = without(columns[at], input);
    columns[at] = column;
    if is_empty(column) {
        *asked = without(*asked, output);
    }
}
