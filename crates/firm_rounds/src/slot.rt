ghost use Rattle.pointer_state.specs.Places.{AreAtPorts};
ghost use Rattle.eslip_rounds.specs.Calls.{CanDecide, IsDecidedBy};
ghost use Rattle.eslip_rounds.specs.Refusals.{Tells, AreToldWithin};
ghost use Rattle.firm_rounds.specs.Slots.{AreMovedByFirm};
ghost use Rattle.firm_rounds.specs.SlotSteps.{AreHeld};
ghost use Rattle.firm_rounds.specs.Decisions.{firm_decision};

use eslip_rounds::{Columns, Refused, Scratch, decide_over_with_refused, decide_with_refused};
use islip_rounds::RoundsUsed;
use pointer_state::Pointers;
use rotating_pick::{lowest, without};
use slot_match::{Match, Row};

/// Decides slot number `slot` of a switch of `n` ports in `rounds` rounds, each from 1 to 64, under
/// FIRM: sets `out` to the match, moves the pointers and answers how the rounds were used.
/// There are `n` rows within `n`, and `p` and `out` are for `n` ports. Takes no memory.
pub fn decide_firm(
    n: u32,
    rounds: u32,
    slot: u32,
    rows: &[Row],
    p: &mut Pointers,
    out: &mut Match,
) -> RoundsUsed
    requires { CanDecide n rounds rows.now p.old out.old }
    ensures { IsDecidedBy AreMovedByFirm firm_decision n rounds slot rows.now p.old (record { matched = out.new; numbers = result; places = p.new }) }
{
    let mut scratch = Scratch::new();
    decide_firm_in(n, rounds, slot, rows, p, out, &mut scratch)
}

/// Decides the slot as [`decide_firm`] does, and works in `scratch`, which one who decides slot after slot keeps. Takes
/// no memory.
pub fn decide_firm_in(
    n: u32,
    rounds: u32,
    slot: u32,
    rows: &[Row],
    p: &mut Pointers,
    out: &mut Match,
    scratch: &mut Scratch,
) -> RoundsUsed
    requires { CanDecide n rounds rows.now p.old out.old }
    ensures { IsDecidedBy AreMovedByFirm firm_decision n rounds slot rows.now p.old (record { matched = out.new; numbers = result; places = p.new }) }
{
    prove!(p.ports() == n);
    let (numbers, refused) = decide_with_refused(n, rounds, slot, rows, p, out, scratch);
    hold(&refused, p);
    numbers
}

/// Decides the slot as [`decide_firm_in`] does, of rows that the caller keeps by columns. Takes no memory.
pub fn decide_firm_over(
    n: u32,
    rounds: u32,
    slot: u32,
    columns: &Columns,
    p: &mut Pointers,
    out: &mut Match,
    scratch: &mut Scratch,
) -> RoundsUsed
    requires { CanDecide n rounds columns.now p.old out.old }
    ensures { IsDecidedBy AreMovedByFirm firm_decision n rounds slot columns.now p.old (record { matched = out.new; numbers = result; places = p.new }) }
{
    prove!(p.ports() == n);
    let (numbers, told) = decide_over_with_refused(n, rounds, slot, columns, p, out, scratch);
    hold(&told, p);
    numbers
}

// Points each output that was refused to the input that refused it.
fn hold(refused: &Refused, p: &mut Pointers)
    requires at_ports { AreAtPorts p.old }
    requires refused { AreToldWithin p.old.ports refused.now }
    ensures held { AreHeld (Tells refused.now) p.old p.new }
    ensures at_ports { AreAtPorts p.new }
{
    let mut rest = refused.outputs;
    while let Some(j) = lowest(rest) {
        let at = j as usize;
        p.held(refused.inputs[at], j, refused.levels[at]);
        rest = without(rest, j);
    }
}
