ghost use Rattle.std.specs.Prelude.{◌≡◌, ℕ, ◌<◌, ◌≤◌, ◌↔◌, length, IsTrue, IfSome};
ghost use Rattle.slot_match.specs.Matches.{fed_of};
ghost use Rattle.scheduler_c.specs.Feeds.{IsFeed, AreFeeds, feed_words, feed_from, kind_word, matched_from};
ghost use Rattle.scheduler_c.specs.FeedSteps.{IsBest, AreWritten};

use crate::words::NO_PORT;
use rotating_pick::{Kind, LEVELS, MAX_PORTS, all, is_subset, union};
use slot_match::{Fed, Match};

/// What feeds an output: the input, the level, and the kind, 0 for unicast and 1 for multicast. All three are
/// 0xffffffff where the output is free.
#[repr(C)]
#[derive(Clone, Copy, Debug, PartialEq, Eq)]
pub struct FeedWords {
    pub input: u32,
    pub level: u32,
    pub kind: u32,
}

/// Writes what feeds each output.
pub fn put_feeds(matched: &Match, feeds: &mut [FeedWords])
    requires { length feeds.old ≡ length matched.now }
    ensures matched { matched_from feeds.new ≡ matched.now }
    ensures feeds { AreFeeds (length matched.now) feeds.new }
{
    let best = union(matched.free_outputs(), matched.outputs_at(0, Kind::Uni));
    if is_subset(all(matched.ports()), best) {
        put_best(matched, feeds);
    } else {
        put_each(matched, feeds);
    }
}

// Writes what feeds each output, whatever its level and kind.
fn put_each(matched: &Match, feeds: &mut [FeedWords])
    requires { length feeds.old ≡ length matched.now }
    ensures { AreWritten matched.now feeds.new }
{
    for output in 0..matched.ports() {
        feeds[output as usize] = feed_words(matched.fed(output));
    }
}

// The same of a match of level 0 and unicast alone, with no look at each output's level and kind.
fn put_best(matched: &Match, feeds: &mut [FeedWords])
    requires count { length feeds.old ≡ length matched.now }
    requires best { (j : ℕ) → IfSome (fed_of matched.now j) IsBest }
    ensures { AreWritten matched.now feeds.new }
{
    for output in 0..matched.ports() {
        feeds[output as usize] = best_words(matched.fed(output));
    }
}

// The words of what feeds an output.
fn feed_words(fed: Option<Fed>) -> FeedWords
    ensures { result ≡ feed_words fed }
{
    match fed {
        Some(fed) => FeedWords {
            input: fed.input,
            level: u32::from(fed.level),
            kind: kind_word(fed.kind),
        },
        None => FeedWords {
            input: NO_PORT,
            level: NO_PORT,
            kind: NO_PORT,
        },
    }
}

// The same of an output that is free or fed as unicast of level 0.
fn best_words(fed: Option<Fed>) -> FeedWords
    requires { IfSome fed IsBest }
    ensures { result ≡ feed_words fed }
{
    match fed {
        Some(fed) => FeedWords {
            input: fed.input,
            level: 0,
            kind: 0,
        },
        None => FeedWords {
            input: NO_PORT,
            level: NO_PORT,
            kind: NO_PORT,
        },
    }
}

// The number of the kind.
fn kind_word(kind: Kind) -> u32
    ensures { result ≡ kind_word kind }
{
    match kind {
        Kind::Uni => 0,
        Kind::Multi => 1,
    }
}

/// Whether there are words for each of `n` outputs, of a free output or of one of the inputs, a level and a kind.
pub fn are_feeds(n: u32, feeds: &[FeedWords]) -> bool
    ensures { IsTrue result ↔ AreFeeds n feeds.now }
{
    feeds.len() == n as usize && feeds.iter().all(|words| is_feed(n, words))
}

// Whether the words are those of a free output, or of one of the `n` inputs, a level and a kind.
fn is_feed(n: u32, words: &FeedWords) -> bool
    ensures { IsTrue result ↔ IsFeed n words.now }
{
    if words.input == NO_PORT && words.level == NO_PORT && words.kind == NO_PORT {
        return true;
    }
    words.input < n && words.level < LEVELS && words.kind < 2
}

/// What the words say that feeds an output.
pub fn feed_from(n: u32, words: &FeedWords) -> Option<Fed>
    requires size { n ≤ MAX_PORTS }
    requires feed { IsFeed n words.now }
    ensures value { result ≡ feed_from words.now }
    ensures input_in { IfSome result (λ fed. fed.input < n) }
    ensures level_in { IfSome result (λ fed. fed.level < LEVELS) }
{
    if words.input == NO_PORT {
        return None;
    }
    Some(Fed {
        input: words.input,
        level: words.level as u8,
        kind: if words.kind == 0 {
            Kind::Uni
        } else {
            Kind::Multi
        },
    })
}
