ghost use Rattle.std.specs.Prelude.{◌≡◌, ℕ, ◌<◌, ◌≤◌, ◌↔◌, ◌⊎◌, None, Some, length, IsTrue, IsSome, IfSome};
ghost use Rattle.rotating_pick.specs.declared.limits.TheConstants.{LEVELS};
ghost use Rattle.slot_match.specs.Matches.{fed_of, IsMatch, IsMaximal};
ghost use Rattle.scheduler_c.specs.Feeds.{AreFeeds, matched_from, feed_from};
ghost use Rattle.scheduler_c.specs.Matches.{IsMatchCall, IsReadyFor};

use crate::feeds::{FeedWords, are_feeds, feed_from};
use crate::rows::are_rows;
use crate::status::{DONE, REFUSED};
use rotating_pick::{LEVELS, MAX_PORTS, with};
use slot_match::{Fed, Match, Row};

/// Whether a match of `n` ports, 1 to 64, is maximal for what the inputs posted: no free input asks a free
/// output, and no input that is matched as multicast has a free output in the rest of its head. `maximal` gets 1
/// or 0. The match may be of any scheduler: it is one where no input is matched twice, except for the outputs of
/// one multicast head.
#[unsafe(no_mangle)]
pub extern "C" fn tiny_tera_is_maximal(
    n: u32,
    rows: &[Row],
    feeds: &[FeedWords],
    maximal: &mut u32,
) -> u32
    // It answers 0 exactly where this may be passed, and else 1.
    ensures done { (result ≡ 0) ↔ IsMatchCall n rows.now feeds.now }
    ensures status { (result ≡ 0) ⊎ (result ≡ 1) }
    ensures yes { result ≡ 0 → (maximal.new ≡ 1) ↔ IsMaximal n rows.now (matched_from feeds.now) }
    ensures answer { result ≡ 0 → (maximal.new ≡ 0) ⊎ (maximal.new ≡ 1) }
    ensures refused { result ≡ 1 → maximal.new ≡ maximal.old }
{
    if n == 0 || n > MAX_PORTS || !are_feeds(n, feeds) || !are_rows(n, rows) {
        return REFUSED;
    }
    let Some(matched) = match_of(n, feeds) else {
        return REFUSED;
    };
    *maximal = if matched.is_maximal(rows) { 1 } else { 0 };
    DONE
}

// The match of these words, None exactly where they are no match.
fn match_of(n: u32, feeds: &[FeedWords]) -> Option<Match>
    requires some { 0 < n }
    requires size { n ≤ MAX_PORTS }
    requires feeds { AreFeeds n feeds.now }
    ensures some { IsSome result ↔ IsMatch n (matched_from feeds.now) }
    ensures value { IfSome result (λ matched. matched ≡ matched_from feeds.now) }
{
    let mut matched = Match::new(n);
    for output in 0..n {
        if let Some(fed) = feed_from(n, &feeds[output as usize]) {
            if !add_pair(&mut matched, output, fed) {
                return None;
            }
        }
    }
    Some(matched)
}

// Matches the output as these words say, and answers whether the input was free for it.
fn add_pair(matched: &mut Match, output: u32, fed: Fed) -> bool
    requires size { length matched.old ≤ MAX_PORTS }
    requires output_in { output < length matched.old }
    requires input_in { fed.input < length matched.old }
    requires level_in { fed.level < LEVELS }
    requires free { fed_of matched.old output ≡ None }
    ensures ready { IsTrue result ↔ IsReadyFor matched.old fed }
    ensures count { IsTrue result → length matched.new ≡ length matched.old }
    ensures fed { IsTrue result → fed_of matched.new output ≡ Some fed }
    ensures stays { IsTrue result → (j : ℕ) → (j ≡ output → ⊥) → fed_of matched.new j ≡ fed_of matched.old j }
    ensures whole { IsTrue result → IsMatch (length matched.new) matched.new }
{
    let outputs = with(0, output);
    if !matched.may_add(fed.input, outputs, fed.level, fed.kind) {
        return false;
    }
    matched.add(fed.input, outputs, fed.level, fed.kind);
    true
}
