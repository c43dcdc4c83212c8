ghost use Rattle.std.specs.Prelude.{◌≡◌, ◌↔◌, ◌⊎◌, ◌≤◌};
ghost use Rattle.slot_match.specs.Matches.{IsMatch, IsMaximal};
ghost use Rattle.pointer_state.specs.CallerTables.{AreInRange, places_from};
ghost use Rattle.eslip_rounds.specs.Slots.{IsSlot};
ghost use Rattle.firm_rounds.specs.Slots.{IsFirmSlot};
ghost use Rattle.rrm_rounds.specs.Slots.{IsRrmSlot};
ghost use Rattle.scheduler_c.specs.Feeds.{AreFeeds, matched_from};
ghost use Rattle.scheduler_c.specs.FourLevels.{IsCall, decision_from};

use crate::decisions::decide_by;
use crate::feeds::FeedWords;
use crate::words::RoundsWords;
use pointer_state::PointerTables;
use scheduler_names::SchedulerName;
use slot_match::Row;

/// Decides slot number `slot` of a switch of `n` ports in `rounds` rounds, each from 1 to 64, over four levels,
/// unicast and multicast. `rows` has what each input posts, and `pointers` where the pointers are, before and
/// then after. `feeds` gets what feeds each output, and `used` how the rounds were used.
#[unsafe(no_mangle)]
pub extern "C" fn tiny_tera_decide(
    n: u32,
    rounds: u32,
    slot: u32,
    rows: &[Row],
    pointers: &mut PointerTables,
    feeds: &mut [FeedWords],
    used: &mut RoundsWords,
) -> u32
    // It answers 0 exactly where this may be passed, and else 1.
    ensures done { (result ≡ 0) ↔ IsCall n rounds rows.now pointers.old feeds.old }
    ensures status { (result ≡ 0) ⊎ (result ≡ 1) }
    ensures slot { result ≡ 0 → IsSlot n rounds slot rows.now (places_from n pointers.old) (decision_from n feeds.new used.new pointers.new) }
    ensures feeds { result ≡ 0 → AreFeeds n feeds.new × IsMatch n (matched_from feeds.new) }
    ensures again { result ≡ 0 → AreInRange n pointers.new }

    // The match is maximal where the last round of all added nothing, and where there are n rounds.
    ensures unused { result ≡ 0 → used.new.last_added ≡ 0 → IsMaximal n rows.now (matched_from feeds.new) }
    ensures enough { result ≡ 0 → n ≤ rounds → IsMaximal n rows.now (matched_from feeds.new) }
    ensures refused { result ≡ 1 → (pointers.new ≡ pointers.old) × (feeds.new ≡ feeds.old) × (used.new ≡ used.old) }
{
    decide_by(
        SchedulerName::Islip,
        n,
        rounds,
        slot,
        rows,
        pointers,
        feeds,
        used,
    )
}

/// The same under FIRM, whose refused outputs point to the input that
/// refused them.
#[unsafe(no_mangle)]
pub extern "C" fn tiny_tera_decide_firm(
    n: u32,
    rounds: u32,
    slot: u32,
    rows: &[Row],
    pointers: &mut PointerTables,
    feeds: &mut [FeedWords],
    used: &mut RoundsWords,
) -> u32
    // It answers 0 exactly where this may be passed, and else 1.
    ensures done { (result ≡ 0) ↔ IsCall n rounds rows.now pointers.old feeds.old }
    ensures status { (result ≡ 0) ⊎ (result ≡ 1) }
    ensures slot { result ≡ 0 → IsFirmSlot n rounds slot rows.now (places_from n pointers.old) (decision_from n feeds.new used.new pointers.new) }
    ensures feeds { result ≡ 0 → AreFeeds n feeds.new × IsMatch n (matched_from feeds.new) }
    ensures again { result ≡ 0 → AreInRange n pointers.new }

    // The match is maximal where the last round of all added nothing, and where there are n rounds.
    ensures unused { result ≡ 0 → used.new.last_added ≡ 0 → IsMaximal n rows.now (matched_from feeds.new) }
    ensures enough { result ≡ 0 → n ≤ rounds → IsMaximal n rows.now (matched_from feeds.new) }
    ensures refused { result ≡ 1 → (pointers.new ≡ pointers.old) × (feeds.new ≡ feeds.old) × (used.new ≡ used.old) }
{
    decide_by(
        SchedulerName::Firm,
        n,
        rounds,
        slot,
        rows,
        pointers,
        feeds,
        used,
    )
}

/// The same by round-robin matching, whose outputs point one beyond the input that they granted, accepted or not.
#[unsafe(no_mangle)]
pub extern "C" fn tiny_tera_decide_rrm(
    n: u32,
    rounds: u32,
    slot: u32,
    rows: &[Row],
    pointers: &mut PointerTables,
    feeds: &mut [FeedWords],
    used: &mut RoundsWords,
) -> u32
    // It answers 0 exactly where this may be passed, and else 1.
    ensures done { (result ≡ 0) ↔ IsCall n rounds rows.now pointers.old feeds.old }
    ensures status { (result ≡ 0) ⊎ (result ≡ 1) }
    ensures slot { result ≡ 0 → IsRrmSlot n rounds slot rows.now (places_from n pointers.old) (decision_from n feeds.new used.new pointers.new) }
    ensures feeds { result ≡ 0 → AreFeeds n feeds.new × IsMatch n (matched_from feeds.new) }
    ensures again { result ≡ 0 → AreInRange n pointers.new }

    // The match is maximal where the last round of all added nothing, and where there are n rounds.
    ensures unused { result ≡ 0 → used.new.last_added ≡ 0 → IsMaximal n rows.now (matched_from feeds.new) }
    ensures enough { result ≡ 0 → n ≤ rounds → IsMaximal n rows.now (matched_from feeds.new) }
    ensures refused { result ≡ 1 → (pointers.new ≡ pointers.old) × (feeds.new ≡ feeds.old) × (used.new ≡ used.old) }
{
    decide_by(
        SchedulerName::Rrm,
        n,
        rounds,
        slot,
        rows,
        pointers,
        feeds,
        used,
    )
}
