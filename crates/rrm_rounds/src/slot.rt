ghost use Rattle.std.specs.Prelude.{◌≡◌, ◌≤◌};
ghost use Rattle.pointer_state.specs.Places.{AreAtPorts};
ghost use Rattle.eslip_rounds.specs.Calls.{CanDecide, IsDecidedBy};
ghost use Rattle.eslip_rounds.specs.Refusals.{Tells, AreToldWithin};
ghost use Rattle.rrm_rounds.specs.Slots.{AreMovedByRrm};
ghost use Rattle.rrm_rounds.specs.SlotSteps.{AreBeyond};
ghost use Rattle.rrm_rounds.specs.Decisions.{rrm_decision};

use eslip_rounds::{Columns, Refused, Scratch, decide_over_with_refused, decide_with_refused};
use islip_rounds::RoundsUsed;
use pointer_state::Pointers;
use rotating_pick::{MAX_PORTS, lowest, next, without};
use slot_match::{Match, Row};

/// Decides slot number `slot` of a switch of `n` ports in `rounds` rounds, each from 1 to 64, by round-robin
/// matching: sets `out` to the match, moves the pointers and answers how the rounds were used.
/// There are `n` rows within `n`, and `p` and `out` are for `n` ports. Takes no memory.
pub fn decide_rrm(
    n: u32,
    rounds: u32,
    slot: u32,
    rows: &[Row],
    p: &mut Pointers,
    out: &mut Match,
) -> RoundsUsed
    requires { CanDecide n rounds rows.now p.old out.old }
    ensures { IsDecidedBy AreMovedByRrm rrm_decision n rounds slot rows.now p.old (record { matched = out.new; numbers = result; places = p.new }) }
{
    let mut scratch = Scratch::new();
    decide_rrm_in(n, rounds, slot, rows, p, out, &mut scratch)
}

/// Decides the slot as [`decide_rrm`] does, and works in `scratch`, which one who decides slot after slot keeps. Takes
/// no memory.
pub fn decide_rrm_in(
    n: u32,
    rounds: u32,
    slot: u32,
    rows: &[Row],
    p: &mut Pointers,
    out: &mut Match,
    scratch: &mut Scratch,
) -> RoundsUsed
    requires { CanDecide n rounds rows.now p.old out.old }
    ensures { IsDecidedBy AreMovedByRrm rrm_decision n rounds slot rows.now p.old (record { matched = out.new; numbers = result; places = p.new }) }
{
    prove!(p.ports() == n);
    let (numbers, refused) = decide_with_refused(n, rounds, slot, rows, p, out, scratch);
    pass(n, &refused, p);
    numbers
}

/// Decides the slot as [`decide_rrm_in`] does, of rows that the caller keeps by columns. Takes no memory.
pub fn decide_rrm_over(
    n: u32,
    rounds: u32,
    slot: u32,
    columns: &Columns,
    p: &mut Pointers,
    out: &mut Match,
    scratch: &mut Scratch,
) -> RoundsUsed
    requires { CanDecide n rounds columns.now p.old out.old }
    ensures { IsDecidedBy AreMovedByRrm rrm_decision n rounds slot columns.now p.old (record { matched = out.new; numbers = result; places = p.new }) }
{
    prove!(p.ports() == n);
    let (numbers, told) = decide_over_with_refused(n, rounds, slot, columns, p, out, scratch);
    pass(n, &told, p);
    numbers
}

// Points each output that was refused one beyond the input that refused it.
fn pass(n: u32, refused: &Refused, p: &mut Pointers)
    requires size { n ≤ MAX_PORTS }
    requires at_ports { AreAtPorts p.old }
    requires ports { p.old.ports ≡ n }
    requires refused { AreToldWithin n refused.now }
    ensures passed { AreBeyond n (Tells refused.now) p.old p.new }
    ensures at_ports { AreAtPorts p.new }
{
    let mut rest = refused.outputs;
    while let Some(j) = lowest(rest) {
        let at = j as usize;
        p.held(next(n, refused.inputs[at]), j, refused.levels[at]);
        rest = without(rest, j);
    }
}
