ghost use Rattle.std.specs.Prelude.{◌≡◌, ◌≢◌, ◌*◌, ◌^◌, ◌<◌, ◌≤◌, length, map, IfOk, IfSome};
ghost use Rattle.std.specs.List.{range_with_len};
ghost use Rattle.slot_match.specs.Rows.{AreWithin};
ghost use Rattle.arrival_queues.specs.Queues.{AreQueues, HasPorts, empty_queues, head_of, held_count, length_with};
ghost use Rattle.arrival_queues.specs.Queues.{queue_count, queue_for, queue_of, queues_with, queues_without_head, rows_of, sum_of_arrivals};
ghost use Rattle.unicast_slots.specs.RowSteps.{AsksToo};
ghost use Rattle.arrival_queues.specs.FieldSteps.{AsksFor, input_told, output_told, port_untold, queue_made};

use crate::cell::ArrivedCell;
use crate::limits::MAX_CELLS;
use crate::queue::ArrivalQueue;
use crate::queueing::Queueing;
use rotating_pick::MAX_PORTS;
use std::alloc::{AllocError, Global};
use std::marker::Model;
use unicast_slots::UnicastRows;

/// The queues of a switch, and for each input the row of the outputs that it asks for: a cell asks where it is the first
/// of its queue. A cell comes and leaves in constant time, and nothing but `make` takes memory.
#[derive(Drop)]
pub struct ArrivalQueues {
    ports: u32,
    queueing: Queueing,
    depth: u32,
    queues: Vec<ArrivalQueue>,
    rows: UnicastRows,
    // How many cells wait, and the sum of the slots in which they came.
    held: u32,
    arrivals: u64,
}

impl Model for ArrivalQueues {
    ghost use Rattle.arrival_queues.specs.Queues.{Queues};
    ghost use Rattle.arrival_queues.specs.FieldSteps.{AreKept, queues_kept};

    ghost Value = { Queues };

    ghost view = { λ s. queues_kept s.ports s.queueing s.depth s.queues.items };

    ghost invariant = { λ s. AreKept (queues_kept s.ports s.queueing s.depth s.queues.items) s.queues.items s.rows s.held s.arrivals };
}

impl ArrivalQueues {
    /// Empty queues of at most `depth` cells each, for a switch of `ports` ports, 1 to 64. All queues together have at
    /// most 67,108,864 places. It takes all memory that the queues need: four bytes a place, and one more where a queue
    /// does not tell both ports of its cells.
    pub fn make(
        alloc: Global,
        queueing: Queueing,
        ports: u32,
        depth: u32,
    ) -> Result<ArrivalQueues, AllocError>
        requires some { 0 < ports }
        requires size { ports ≤ MAX_PORTS }
        requires room { queue_count queueing ports * depth ≤ MAX_CELLS }
        ensures { IfOk result (λ queues. queues ≡ empty_queues queueing ports depth) }
    {
        Ok(ArrivalQueues {
            ports,
            queueing,
            depth,
            queues: queues_made(alloc, queueing, ports, depth)?,
            rows: UnicastRows::make(alloc, ports)?,
            held: 0,
            arrivals: 0,
        })
    }

    /// The number of ports of the switch, 1 to 64.
    pub fn ports(&self) -> u32
        ensures value { result ≡ self.now.ports }
        ensures some { 0 < result }
        ensures size { result ≤ MAX_PORTS }
    {
        self.ports
    }

    /// A cell comes: it is the last of its queue, or is dropped where that has no room. How many cells its queue has
    /// then; None where it is dropped.
    pub fn enter(&mut self, slot: u32, input: u32, output: u32) -> Option<u32>
        requires input { input < self.old.ports }
        requires output { output < self.old.ports }
        ensures value { result ≡ length_with self.old (record { arrival = slot; input = input; output = output }) }
        ensures queues { self.new ≡ queues_with self.old (record { arrival = slot; input = input; output = output }) }
    {
        let place = place_of(self.queueing, self.ports, input, output);
        let port = port_untold(self.queueing, input, output);
        let count = self.queues[place].enter(slot, port)?;
        ask_if_first(&mut self.rows, count, input, output);
        self.held += 1;
        self.arrivals += u64::from(slot);
        Some(count)
    }

    /// The first cell of the queue of the cells from the input to the output leaves. None where none waits there. Where
    /// a queue is for all outputs of an input only the input tells which it is, and where it is for all inputs of an
    /// output only the output.
    pub fn leave(&mut self, input: u32, output: u32) -> Option<ArrivedCell>
        requires input { input < self.old.ports }
        requires output { output < self.old.ports }
        ensures value { result ≡ head_of self.old (queue_for self.old input output) }
        ensures queues { self.new ≡ queues_without_head self.old (queue_for self.old input output) }
        ensures ports { IfSome result (HasPorts self.old.queueing input output) }
        ensures within { IfSome result (λ cell. (cell.input < self.old.ports) × (cell.output < self.old.ports)) }
    {
        let place = place_of(self.queueing, self.ports, input, output);
        let cell = self.queues[place].leave()?;
        self.rows.ask_no_more(cell.input, cell.output);
        ask_for(&mut self.rows, self.queues[place].head());
        self.held -= 1;
        self.arrivals -= u64::from(cell.arrival);
        Some(cell)
    }

    /// The row of each input, which names none but the ports.
    pub fn rows(&self) -> &UnicastRows
        ensures value { result.now ≡ rows_of self.now }
        ensures within { AreWithin self.now.ports result.now }
    {
        &self.rows
    }

    /// How many cells wait, at most 67,108,864.
    pub fn held(&self) -> u32
        ensures value { result ≡ held_count self.now }
        ensures within { result ≤ MAX_CELLS }
    {
        self.held
    }

    /// The sum of the slots in which the cells that wait came.
    pub fn sum_of_arrivals(&self) -> u64
        ensures value { result ≡ sum_of_arrivals self.now }
        ensures within { result ≤ 2 ^ 32 * held_count self.now }
    {
        self.arrivals
    }

    /// States what is true of the queues of any switch.
    pub fn are_queues(&self)
        ensures { AreQueues self.now }
    {
        // Reads a field: that tells the proof what the type says of its value.
        let _ = &self.ports;
    }
}

// The queue of the cells from the input to the output.
fn place_of(queueing: Queueing, ports: u32, input: u32, output: u32) -> usize
    requires size { ports ≤ MAX_PORTS }
    requires input { input < ports }
    requires output { output < ports }
    ensures value { result ≡ queue_of queueing ports input output }
    ensures within { result < queue_count queueing ports }
{
    match queueing {
        Queueing::ByPair => (input * ports + output) as usize,
        Queueing::ByInput => input as usize,
        Queueing::ByOutput => output as usize,
    }
}

// The port of a cell that its queue does not tell; 0 where it tells both.
fn port_untold(queueing: Queueing, input: u32, output: u32) -> u32
    ensures { result ≡ port_untold queueing input output }
{
    match queueing {
        Queueing::ByPair => 0,
        Queueing::ByInput => output,
        Queueing::ByOutput => input,
    }
}

// The input asks for the output, where the cell that came is the first of a queue that now has so many.
fn ask_if_first(rows: &mut UnicastRows, count: u32, input: u32, output: u32)
    requires input { input < length rows.old }
    requires output { output < MAX_PORTS }
    ensures first { count ≡ 1 → AsksToo rows.old rows.new input output }
    ensures later { count ≢ 1 → rows.new ≡ rows.old }
{
    if count == 1 {
        rows.ask(input, output);
    }
}

// The cell asks, if there is one.
fn ask_for(rows: &mut UnicastRows, cell: Option<ArrivedCell>)
    requires { IfSome cell (λ cell. (cell.input < length rows.old) × (cell.output < MAX_PORTS)) }
    ensures { AsksFor rows.old rows.new cell }
{
    if let Some(cell) = cell {
        rows.ask(cell.input, cell.output);
    }
}

// The input and the output that a queue tells of its cells; where it tells one alone, the other says nothing.
fn ports_told(queueing: Queueing, ports: u32, place: u32) -> (u32, u32)
    requires { 0 < ports }
    ensures input { result.0 ≡ input_told queueing ports place }
    ensures output { result.1 ≡ output_told queueing ports place }
{
    match queueing {
        Queueing::ByPair => (place / ports, place % ports),
        Queueing::ByInput | Queueing::ByOutput => (place, place),
    }
}

// The queues, each without a cell.
fn queues_made(
    alloc: Global,
    queueing: Queueing,
    ports: u32,
    depth: u32,
) -> Result<Vec<ArrivalQueue>, AllocError>
    requires some { 0 < ports }
    requires size { ports ≤ MAX_PORTS }
    ensures { IfOk result (λ queues. queues.items ≡ map (queue_made queueing ports depth) (range_with_len 0 (queue_count queueing ports))) }
{
    let count = queueing.queue_count(ports);
    let mut queues = Vec::with_capacity(alloc, count as usize)?;
    for place in 0..count {
        let (input, output) = ports_told(queueing, ports, place);
        queues.push(ArrivalQueue::make(alloc, queueing, input, output, depth)?)?;
    }
    Ok(queues)
}
