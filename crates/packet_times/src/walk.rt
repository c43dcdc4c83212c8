ghost use Rattle.std.specs.Prelude.{◌≡◌, ◌<◌, ◌+◌, ◌^◌, ◌∷◌, ℕ, [], length, slice_get, slice_index_or, IfSome, IfNone};
ghost use Rattle.rotating_pick.specs.declared.limits.TheConstants.{LEVELS, MAX_PORTS};
ghost use Rattle.packet_times.specs.NotingSteps.{no_input};
ghost use Rattle.packet_times.specs.Rows.{aside_row};
ghost use Rattle.packet_times.specs.FieldSteps.{texts_of};
ghost use Rattle.packet_times.specs.KeptSteps.{is_flow, begun, kept_departure, kept_state, kept_row, walk_at, kept_outcome, passed, rows_left};

use crate::ends::place_of_flow;
use crate::fields::{Leaving, Row};
use crate::flow_counts::{MOST_FLOWS, count_at, count_packet, place_of_own};
use crate::rows::kind_of;
use crate::times::PacketTimes;
use card_core::Planned;
use rotating_pick::{LEVELS, MAX_PORTS, Ports, is_empty, lowest, without};

/// A packet of an input, its number there, and whether it was admitted.
#[derive(Clone, Copy)]
pub(crate) struct Outcome {
    pub(crate) input: usize,
    pub(crate) number: usize,
    pub(crate) packet: Planned,
    pub(crate) admitted: bool,
}

/// How far a walk over the rows has come: the input, the number of its next packet, the outputs that are left of that where
/// it has begun, and how many packets before it went by each flow of the input.
#[derive(Clone, Copy)]
pub(crate) struct Walk {
    pub(crate) input: usize,
    pub(crate) number: usize,
    pub(crate) outputs: Ports,
    pub(crate) counts: [u32; MOST_FLOWS],
}

impl Walk {
    /// A walk before the rows of an input.
    pub(crate) fn at(input: usize) -> Walk
        ensures { result ≡ walk_at input }
    {
        Walk {
            input,
            number: 0,
            outputs: 0,
            counts: [0; MOST_FLOWS],
        }
    }

    // The outputs that are left of its packet.
    fn left_of(&self, packet: &Planned) -> Ports
        ensures { result ≡ begun packet.now self.now.outputs }
    {
        if is_empty(self.outputs) {
            packet.fan
        } else {
            self.outputs
        }
    }

    // Goes past a row of its packet, of which these outputs are left.
    fn pass(&mut self, outcome: &Outcome, rest: Ports)
        requires { self.old.number < 2 ^ 63 }
        ensures { self.new ≡ passed outcome.now.packet outcome.now.admitted rest self.old }
    {
        self.outputs = rest;
        if is_empty(rest) {
            self.number += 1;
            if outcome.admitted {
                count_packet(&mut self.counts, &outcome.packet);
            }
        }
    }
}

// Whether it is a flow of a switch of so many ports.
fn is_flow_of(ports: u32, input: usize, output: u32, level: u8) -> bool
    ensures { result ≡ is_flow ports input output level }
{
    input < ports as usize && output < ports && u32::from(level) < LEVELS
}

impl PacketTimes {
    // The end of this number of the flow at a place.
    fn end_at(&self, place: usize, number: u32) -> Option<u32>
        ensures { result ≡ slice_get (slice_index_or self.now.ends place []) number }
    {
        self.ends.get(place)?.get(number)
    }

    // The slot in which a packet left by an output, where it was admitted; the counts are of the packets before it.
    fn departure(&self, counts: &[u32], outcome: &Outcome, output: u32) -> Option<u32>
        requires { output < MAX_PORTS }
        ensures { result ≡ kept_departure self.now counts.now outcome.now.input outcome.now.packet outcome.now.admitted output }
    {
        let ports = self.ports();
        let level = outcome.packet.level;
        if !outcome.admitted || !is_flow_of(ports, outcome.input, output, level) {
            return None;
        }
        let kind = kind_of(outcome.packet.fan);
        let earlier = count_at(counts, place_of_own(output, level, kind));
        let place = place_of_flow(ports, outcome.input as u32, output, level, kind);
        self.end_at(place, earlier)
    }

    // The row of a packet to an output.
    fn routed(&self, counts: &[u32], outcome: &Outcome, output: u32) -> Row
        requires { output < MAX_PORTS }
        ensures { texts_of result ≡ kept_row self.now counts.now outcome.now.input outcome.now.number outcome.now.packet outcome.now.admitted output }
    {
        let departure = self.departure(counts, outcome, output);
        Row {
            outcome: *outcome,
            leaving: Some(Leaving { output, departure }),
        }
    }

    // Goes on to the next input that has a packet left.
    fn go_on(&self, walk: &mut Walk)
        ensures same { rows_left self.now walk.new ≡ rows_left self.now walk.old }
        ensures there { walk.new.input < length self.now.inputs
            → walk.new.number < length (slice_index_or self.now.inputs walk.new.input no_input).counters.packets }
    {
        while walk.input < self.inputs.len()
            && walk.number >= self.inputs[walk.input].packets().len()
        {
            *walk = Walk::at(walk.input + 1);
        }
    }

    // The packet that a walk is at, None where there is none.
    fn outcome_at(&self, walk: &Walk) -> Option<Outcome>
        ensures value { result ≡ kept_outcome self.now walk.now }
        ensures few { IfSome result (λ outcome. walk.now.number < 2 ^ 63) }
    {
        let own = self.inputs.get(walk.input)?;
        let packet = own.packets().get(walk.number)?;
        Some(Outcome {
            input: walk.input,
            number: walk.number,
            packet: *packet,
            admitted: own.is_admitted(walk.number),
        })
    }

    /// Takes the next row of those that the walk has left, None where there is none.
    pub(crate) fn next_row(&self, walk: &mut Walk) -> Option<Row>
        ensures some { IfSome result (λ row. rows_left self.now walk.old ≡ texts_of row ∷ rows_left self.now walk.new) }
        ensures none { IfNone result ((rows_left self.now walk.old ≡ []) × (rows_left self.now walk.new ≡ [])) }
    {
        self.go_on(walk);
        let outcome = self.outcome_at(walk)?;
        let left = walk.left_of(&outcome.packet);
        let Some(output) = lowest(left) else {
            walk.pass(&outcome, 0);
            return Some(aside(&outcome));
        };
        let row = self.routed(&walk.counts, &outcome, output);
        walk.pass(&outcome, without(left, output));
        Some(row)
    }
}

// The row of a packet that goes nowhere.
fn aside(outcome: &Outcome) -> Row
    ensures { texts_of result ≡ aside_row outcome.now.input outcome.now.number outcome.now.packet (kept_state outcome.now.packet outcome.now.admitted) }
{
    Row {
        outcome: *outcome,
        leaving: None,
    }
}
