//! How long the decision of a slot takes, under some loads.
ghost use Rattle.std.specs.Prelude.{◌<◌, ◌≤◌};

use eslip_rounds::{Scratch, decide_in};
use pointer_state::Pointers;
use rotating_pick::{LEVELS, MAX_PORTS, MAX_ROUNDS, all, next, with};
use slot_match::{Match, Row, are_within};
use std::time::{Clock, Instant};
use std::{fmt, io};

/// The slots that are timed at once.
pub(crate) const SLOTS: u32 = 100;

/// How often they are timed. The least time counts, since it was disturbed least.
pub(crate) const BATCHES: u32 = 100;

/// What the inputs of a timed switch post, in each of its slots the same.
#[derive(Clone, Copy)]
pub(crate) enum Load {
    /// Unicast of level 0 for each output.
    Full,
    /// Unicast of level 0 for two outputs.
    Sparse,
    /// Unicast for each output and a head for two outputs, at each level.
    EightRanks,
    /// Unicast for each output and a head for two outputs, at level 0, in slots that prefer multicast.
    Multicast,
    /// Nothing.
    Idle,
}

impl Load {
    /// The row of input `i` of `n`.
    pub(crate) fn row(self, n: u32, i: u32) -> Row
        requires size { n ≤ MAX_PORTS }
        requires i_in { i < n }
    {
        let two = with(with(0, i), next(n, i));
        let each = all(n);
        match self {
            Load::Full => Row {
                uni: [each, 0, 0, 0],
                multi: [0; LEVELS as usize],
            },
            Load::Sparse => Row {
                uni: [two, 0, 0, 0],
                multi: [0; LEVELS as usize],
            },
            Load::EightRanks => Row {
                uni: [each; LEVELS as usize],
                multi: [two; LEVELS as usize],
            },
            Load::Multicast => Row {
                uni: [each, 0, 0, 0],
                multi: [two, 0, 0, 0],
            },
            Load::Idle => Row::empty(),
        }
    }

    // The number of the timed slot: all slots in turn, or the odd ones alone.
    fn slot(self, turn: u32) -> u32
        requires { turn < SLOTS }
    {
        match self {
            Load::Multicast => 2 * turn + 1,
            _ => turn,
        }
    }
}

impl fmt::Display for Load {
    fn fmt<W: fmt::Write>(&self, f: &mut fmt::Formatter<W>) -> fmt::Result {
        f.write_str(match self {
            Load::Full => "full rows",
            Load::Sparse => "sparse rows",
            Load::EightRanks => "eight ranks",
            Load::Multicast => "odd slots with multicast",
            Load::Idle => "idle slots",
        })
    }
}

/// Decides slots one after the other, and answers how many pairs they matched.
pub(crate) fn decide_batch(
    load: Load,
    rounds: u32,
    rows: &[Row],
    p: &mut Pointers,
    out: &mut Match,
    scratch: &mut Scratch,
) -> u64
    requires some { 0 < rounds }
    requires few { rounds ≤ MAX_ROUNDS }
{
    let n = p.ports();
    let mut pairs = 0u64;
    if !are_within(n, rows) {
        return pairs;
    }
    for turn in 0..SLOTS {
        if p.ports() == n && out.ports() == n {
            let _numbers = decide_in(n, rounds, load.slot(turn), rows, p, out, scratch);
        }
        pairs = pairs.wrapping_add(out.count() as u64);
    }
    pairs
}

// Times the slots of a switch of `n` ports, and tells the least time of one.
fn time_slots<R: Clock + Eprint>(rt: &R, load: Load, n: u32, rounds: u32) -> io::Result<()>
    requires some { 0 < n }
    requires size { n ≤ MAX_PORTS }
    requires rounds_some { 0 < rounds }
    requires rounds_few { rounds ≤ MAX_ROUNDS }
{
    let mut rows = [Row::empty(); MAX_PORTS as usize];
    for i in 0..n {
        rows[i as usize] = load.row(n, i);
    }
    let mut p = Pointers::new(n);
    let mut out = Match::new(n);
    let mut scratch = Scratch::new();
    let mut least = u128::MAX;
    let mut pairs = 0;
    for _batch in 0..BATCHES {
        let begin = Instant::now(rt)?;
        let rows = &rows[..n as usize];
        pairs = decide_batch(load, rounds, rows, &mut p, &mut out, &mut scratch);
        let end = Instant::now(rt)?;
        least = least.min(end.duration_since(begin).as_nanos());
    }
    let slots = SLOTS as u128;
    eprintln!(rt;
        "{load}, {n} ports, {rounds} rounds: {} ns a slot, {} pairs in {SLOTS} slots",
        least / slots,
        pairs
    )
}

/// Tells the time of a slot with 4 to 64 ports under each load, of four rounds, and of one round with all rows full.
pub(crate) fn time_decisions<R: Clock + Eprint>(rt: &R) -> io::Result<()> {
    for load in [
        Load::Full,
        Load::Sparse,
        Load::EightRanks,
        Load::Multicast,
        Load::Idle,
    ] {
        time_slots(rt, load, 4, 4)?;
        time_slots(rt, load, 16, 4)?;
        time_slots(rt, load, 32, 4)?;
        time_slots(rt, load, 64, 4)?;
    }
    time_slots(rt, Load::Full, 64, 1)
}
