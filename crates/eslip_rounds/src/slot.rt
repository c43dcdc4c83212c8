ghost use Rattle.std.specs.Prelude.{◌≡◌, ◌<◌, IsTrue};
ghost use Rattle.slot_match.specs.Rows.{AreWithin};
ghost use Rattle.eslip_rounds.specs.Slots.{AreMoved};
ghost use Rattle.eslip_rounds.specs.Steps.{AreAsks};
ghost use Rattle.eslip_rounds.specs.Refusals.{AreRefused};
ghost use Rattle.eslip_rounds.specs.Decisions.{decision_of};
ghost use Rattle.eslip_rounds.specs.Calls.{CanDecide, IsDecidedBy};

use crate::asks::Asks;
use crate::columns::Columns;
use crate::grants::{Offers, no_offers};
use crate::moves::move_pointers;
use crate::ranks::preferred_kind;
use crate::refusals::{Refused, none_refused, refused_grants};
use crate::rounds::make_rounds;
use islip_rounds::RoundsUsed;
use pointer_state::Pointers;
use rotating_pick::{PORT_COUNT, Ports};
use slot_match::{Match, Row};
use std::marker::Model;

/// Decides slot number `slot` of a switch of `n` ports in `rounds` rounds, each from 1 to 64: sets
/// `out` to the match, moves the pointers and answers how the rounds were used. There are `n` rows
/// within `n`, and `p` and `out` are for `n` ports. Takes no memory.
pub fn decide(
    n: u32,
    rounds: u32,
    slot: u32,
    rows: &[Row],
    p: &mut Pointers,
    out: &mut Match,
) -> RoundsUsed
    requires { CanDecide n rounds rows.now p.old out.old }
    ensures { IsDecidedBy AreMoved decision_of n rounds slot rows.now p.old (record { matched = out.new; numbers = result; places = p.new }) }
{
    let mut scratch = Scratch::new();
    decide_in(n, rounds, slot, rows, p, out, &mut scratch)
}

/// What a decision works in. One who decides slot after slot keeps it, so that nothing is made anew and
/// emptied in each: no slot sees what an earlier one left, which may be of a switch of another size.
#[derive(Drop)]
pub struct Scratch {
    asks: Asks,
    // What each row names in one set, while that is turned into columns.
    collected: [Ports; PORT_COUNT],
    offers: Offers,
    refused: Refused,
}

impl Model for Scratch {
    ghost Value = { Unit {0} };

    ghost view = { λ _. tt };
}

impl Scratch {
    /// One that no slot has used. Takes no memory.
    pub fn new() -> Scratch {
        Scratch {
            asks: Asks::new(),
            collected: [0; PORT_COUNT],
            offers: no_offers(),
            refused: none_refused(),
        }
    }
}

/// Decides the slot as [`decide`] does, and works in `scratch`. Takes no memory.
pub fn decide_in(
    n: u32,
    rounds: u32,
    slot: u32,
    rows: &[Row],
    p: &mut Pointers,
    out: &mut Match,
    scratch: &mut Scratch,
) -> RoundsUsed
    requires { CanDecide n rounds rows.now p.old out.old }
    ensures { IsDecidedBy AreMoved decision_of n rounds slot rows.now p.old (record { matched = out.new; numbers = result; places = p.new }) }
{
    let turn = Turn {
        rounds,
        slot,
        tells: false,
    };
    scratch.asks.read(n, rows, &mut scratch.collected);
    let (offers, refused) = (&mut scratch.offers, &mut scratch.refused);
    decide_asked(n, turn, rows, &scratch.asks, p, out, offers, refused)
}

/// Decides the slot as [`decide_in`] does, of rows that the caller keeps by columns. Takes no memory.
pub fn decide_over(
    n: u32,
    rounds: u32,
    slot: u32,
    columns: &Columns,
    p: &mut Pointers,
    out: &mut Match,
    scratch: &mut Scratch,
) -> RoundsUsed
    requires { CanDecide n rounds columns.now p.old out.old }
    ensures { IsDecidedBy AreMoved decision_of n rounds slot columns.now p.old (record { matched = out.new; numbers = result; places = p.new }) }
{
    let turn = Turn {
        rounds,
        slot,
        tells: false,
    };
    let (offers, refused) = (&mut scratch.offers, &mut scratch.refused);
    let (rows, asks) = (columns.rows(), columns.asks());
    decide_asked(n, turn, rows, asks, p, out, offers, refused)
}

/// Decides the slot as [`decide_in`] does, and answers beside the numbers which unicast grants of the first
/// round were not accepted. Takes no memory.
pub fn decide_with_refused(
    n: u32,
    rounds: u32,
    slot: u32,
    rows: &[Row],
    p: &mut Pointers,
    out: &mut Match,
    scratch: &mut Scratch,
) -> (RoundsUsed, Refused)
    requires { CanDecide n rounds rows.now p.old out.old }
    ensures decided { IsDecidedBy AreMoved decision_of n rounds slot rows.now p.old (record { matched = out.new; numbers = result.0; places = p.new }) }
    ensures refused { AreRefused n slot rows.now p.old result.1 }
{
    let turn = Turn {
        rounds,
        slot,
        tells: true,
    };
    scratch.asks.read(n, rows, &mut scratch.collected);
    let (offers, refused) = (&mut scratch.offers, &mut scratch.refused);
    let numbers = decide_asked(n, turn, rows, &scratch.asks, p, out, offers, refused);
    (numbers, scratch.refused)
}

/// Decides the slot as [`decide_with_refused`] does, of rows that the caller keeps by columns. Takes no memory.
pub fn decide_over_with_refused(
    n: u32,
    rounds: u32,
    slot: u32,
    columns: &Columns,
    p: &mut Pointers,
    out: &mut Match,
    scratch: &mut Scratch,
) -> (RoundsUsed, Refused)
    requires { CanDecide n rounds columns.now p.old out.old }
    ensures decided { IsDecidedBy AreMoved decision_of n rounds slot columns.now p.old (record { matched = out.new; numbers = result.0; places = p.new }) }
    ensures refused { AreRefused n slot columns.now p.old result.1 }
{
    let turn = Turn {
        rounds,
        slot,
        tells: true,
    };
    let (offers, refused) = (&mut scratch.offers, &mut scratch.refused);
    let (rows, asks) = (columns.rows(), columns.asks());
    let numbers = decide_asked(n, turn, rows, asks, p, out, offers, refused);
    (numbers, scratch.refused)
}

// Which slot is decided, in how many rounds, and whether its refused grants are told.
#[derive(Clone, Copy)]
struct Turn {
    rounds: u32,
    slot: u32,
    tells: bool,
}

// Decides the slot of these rows, which ask so. What `offers` and `refused` held is not read.
fn decide_asked(
    n: u32,
    turn: Turn,
    rows: &[Row],
    asks: &Asks,
    p: &mut Pointers,
    out: &mut Match,
    offers: &mut Offers,
    refused: &mut Refused,
) -> RoundsUsed
    requires can { CanDecide n turn.rounds rows.now p.old out.old }
    requires asks { AreAsks n rows.now asks.now }
    ensures decided { IsDecidedBy AreMoved decision_of n turn.rounds turn.slot rows.now p.old (record { matched = out.new; numbers = result; places = p.new }) }
    ensures refused { IsTrue turn.tells → AreRefused n turn.slot rows.now p.old refused.new }
{
    prove!(p.ports() == n);
    let first_kind = preferred_kind(turn.slot);
    let made = make_rounds(n, turn.rounds, first_kind, asks, offers, p, out);
    if turn.tells {
        refused_grants(n, first_kind, asks, p, made.first_outputs, refused);
    }
    move_pointers(n, rows, asks, out, made.first_outputs, p);
    made.numbers
}
