ghost use Rattle.std.specs.Prelude.{◌≡◌, ◌≤◌, ◌↔◌, ◌⊎◌, length};
ghost use Rattle.slot_match.specs.Rows.{AreWithin};
ghost use Rattle.slot_match.specs.Matches.{IsMatch, IsMaximal};
ghost use Rattle.pointer_state.specs.Places.{AreAtPorts};
ghost use Rattle.pointer_state.specs.CallerTables.{AreInRange, places_from};
ghost use Rattle.eslip_rounds.specs.Calls.{CanDecide};
ghost use Rattle.scheduler_c.specs.Words.{IsSize};
ghost use Rattle.scheduler_c.specs.Numbers.{numbers_from};
ghost use Rattle.scheduler_c.specs.Feeds.{AreFeeds, matched_from};
ghost use Rattle.scheduler_c.specs.FourLevels.{IsCall, decision_from};
ghost use Rattle.scheduler_c.specs.SchedulerSteps.{IsSlotUnder};

use crate::feeds::{FeedWords, put_feeds};
use crate::rows::are_rows;
use crate::status::{DONE, REFUSED};
use crate::words::{RoundsWords, is_size, rounds_words};
use eslip_rounds::{Scratch, decide_in};
use firm_rounds::decide_firm_in;
use islip_rounds::RoundsUsed;
use pointer_state::{PointerTables, Pointers};
use rrm_rounds::decide_rrm_in;
use scheduler_names::SchedulerName;
use slot_match::{Match, Row};

/// Decides a slot by the scheduler of this name: what the calls for C do, each by its own.
pub fn decide_by(
    scheduler: SchedulerName,
    n: u32,
    rounds: u32,
    slot: u32,
    rows: &[Row],
    pointers: &mut PointerTables,
    feeds: &mut [FeedWords],
    used: &mut RoundsWords,
) -> u32
    // It answers 0 exactly where this may be passed, and else 1.
    ensures done { (result ≡ 0) ↔ IsCall n rounds rows.now pointers.old feeds.old }
    ensures status { (result ≡ 0) ⊎ (result ≡ 1) }
    ensures slot { result ≡ 0 → IsSlotUnder scheduler n rounds slot rows.now (places_from n pointers.old) (decision_from n feeds.new used.new pointers.new) }
    ensures feeds { result ≡ 0 → AreFeeds n feeds.new × IsMatch n (matched_from feeds.new) }
    ensures again { result ≡ 0 → AreInRange n pointers.new }

    // The match is maximal where the last round of all added nothing, and where there are n rounds.
    ensures unused { result ≡ 0 → used.new.last_added ≡ 0 → IsMaximal n rows.now (matched_from feeds.new) }
    ensures enough { result ≡ 0 → n ≤ rounds → IsMaximal n rows.now (matched_from feeds.new) }
    ensures refused { result ≡ 1 → (pointers.new ≡ pointers.old) × (feeds.new ≡ feeds.old) × (used.new ≡ used.old) }
{
    if !is_size(n, rounds) || feeds.len() != n as usize || !are_rows(n, rows) {
        return REFUSED;
    }
    if !pointers.is_in_range(n) {
        return REFUSED;
    }
    let mut places = Pointers::at_tables(n, pointers);
    let scratch = &mut Scratch::new();
    *used = decide_tested(
        scheduler,
        n,
        rounds,
        slot,
        rows,
        &mut places,
        scratch,
        feeds,
    );
    places.put_tables(pointers);
    DONE
}

/// Decides a slot of which all was tested, over pointers of `n` ports, and answers how its rounds were used. It works in
/// `scratch`, which goes on from slot to slot.
pub fn decide_tested(
    scheduler: SchedulerName,
    n: u32,
    rounds: u32,
    slot: u32,
    rows: &[Row],
    p: &mut Pointers,
    scratch: &mut Scratch,
    feeds: &mut [FeedWords],
) -> RoundsWords
    requires size { IsSize n rounds }
    requires rows { AreWithin n rows.now }
    requires pointers { p.old.ports ≡ n }
    requires outputs { length feeds.old ≡ n }
    ensures slot { IsSlotUnder scheduler n rounds slot rows.now p.old (record { matched = matched_from feeds.new; numbers = numbers_from result; places = p.new }) }
    ensures feeds { AreFeeds n feeds.new × IsMatch n (matched_from feeds.new) }
    ensures at_ports { AreAtPorts p.new }
    ensures ports { p.new.ports ≡ n }
    ensures unused { result.last_added ≡ 0 → IsMaximal n rows.now (matched_from feeds.new) }
    ensures enough { n ≤ rounds → IsMaximal n rows.now (matched_from feeds.new) }
{
    let mut matched = Match::new(n);
    let numbers = decide_slot(scheduler, n, rounds, slot, rows, p, scratch, &mut matched);
    put_feeds(&matched, feeds);
    rounds_words(numbers)
}

// Decides the slot by the scheduler of this name, over pointers and a match of `n` ports.
fn decide_slot(
    scheduler: SchedulerName,
    n: u32,
    rounds: u32,
    slot: u32,
    rows: &[Row],
    p: &mut Pointers,
    scratch: &mut Scratch,
    out: &mut Match,
) -> RoundsUsed
    requires { CanDecide n rounds rows.now p.old out.old }
    ensures slot { IsSlotUnder scheduler n rounds slot rows.now p.old (record { matched = out.new; numbers = result; places = p.new }) }
    ensures whole { IsMatch n out.new }
    ensures at_ports { AreAtPorts p.new }
    ensures ports { p.new.ports ≡ n }
    ensures unused { result.last_added ≡ 0 → IsMaximal n rows.now out.new }
    ensures enough { n ≤ rounds → IsMaximal n rows.now out.new }
{
    match scheduler {
        SchedulerName::Islip => decide_in(n, rounds, slot, rows, p, out, scratch),
        SchedulerName::Firm => decide_firm_in(n, rounds, slot, rows, p, out, scratch),
        SchedulerName::Rrm => decide_rrm_in(n, rounds, slot, rows, p, out, scratch),
    }
}
