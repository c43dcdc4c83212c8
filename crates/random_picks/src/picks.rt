ghost use Rattle.std.specs.Prelude.{◌≡◌, ◌-◌, ◌<◌, ◌≤◌, ◌++◌, ◌∷◌, [], ℕ, List, IfSome};
ghost use Rattle.rotating_pick.specs.PortSets.{Has};
ghost use Rattle.slot_match.specs.declared.rows.Row.{Row};
ghost use Rattle.slot_match.specs.Matches.{IsMatch};
ghost use Rattle.slot_match.specs.Rows.{AreWithin};
ghost use Rattle.islip_rounds.specs.Numbers.{last_of, matched_count};
ghost use Rattle.made_traffic.specs.Streams.{stream_at_first};
ghost use Rattle.random_picks.specs.Picks.{members, pick_of, picked, stream_before};
ghost use Rattle.random_picks.specs.PickSteps.{AreColumns, AreMembers, choices_in, pick_at};
ghost use Rattle.random_picks.specs.Rounds.{RandomRounds, pim_decision, round, with_round};
ghost use Rattle.random_picks.specs.declared.picks.TheConstants.{PICKS_STREAM};

use crate::matching::{asked_by, columns_of, feed, no_picks, offered_by};
use crate::members::{count, member};
use islip_rounds::RoundsUsed;
use made_traffic::stream;
use rand_core::utils::NextWord;
use rand_xoshiro::SplitMix64;
use rotating_pick::{MAX_PORTS, MAX_ROUNDS, PORT_COUNT, Ports, is_empty};
use slot_match::{Match, Row};
use std::marker::Model;

/// The stream of random words by which ports pick; those of the inputs' traffic are 0 to 63.
pub const PICKS_STREAM: u8 = 64;

// Half a word.
const HALF: u64 = 4_294_967_296;

/// What picks at random. It is seen as where its stream of random words is.
#[derive(Drop)]
pub struct RandomPicks {
    words: SplitMix64,
}

impl Model for RandomPicks {
    ghost use Rattle.std.specs.Prelude.{ℕ};

    ghost Value = { ℕ };

    ghost view = { λ p. p.words };
}

impl RandomPicks {
    /// By the random words of the seed, from the first on.
    pub fn new(seed: u32) -> RandomPicks
        ensures { result ≡ stream_at_first seed PICKS_STREAM }
    {
        RandomPicks {
            words: stream(seed, PICKS_STREAM),
        }
    }

    /// A member of the set, each with the same chance, by a word; None exactly where the set is empty, and then no word is
    /// drawn.
    pub fn pick(&mut self, ports: Ports) -> Option<u32>
        ensures pick { record { port = result; stream = self.new } ≡ pick_of (members ports) self.old }
        ensures member { IfSome result (Has ports) }
    {
        if is_empty(ports) {
            return None;
        }
        let word = self.words.next_word();
        let number = word / HALF * u64::from(count(ports)) / HALF;
        member(ports, number as u32)
    }

    // The first `n` ports pick one after the other, each of its set.
    fn pick_each(&mut self, n: u32, sets: &[Ports; PORT_COUNT]) -> [Option<u32>; PORT_COUNT]
        requires { n ≤ MAX_PORTS }
        ensures picks { (k : ℕ) → k < n → pick_at result k ≡ picked (choices_in sets.now) self.old k }
        ensures stream { self.new ≡ stream_before (choices_in sets.now) self.old n }
        ensures members { AreMembers n sets.now result }
    {
        let mut picks = no_picks();
        for k in 0..n {
            picks[k as usize] = self.pick(sets[k as usize]);
        }
        picks
    }

    // One round: each free output grants, and each input that was granted accepts. `columns` has for each output the inputs
    // that ask it. Answers how many outputs it matched.
    fn round(&mut self, n: u32, columns: &[Ports; PORT_COUNT], out: &mut Match) -> u32
        requires size { n ≤ MAX_PORTS }
        requires whole { IsMatch n out.old }
        ensures round { (rows : List Row) → AreColumns n rows columns.now
            → record { matched = out.new; stream = self.new } ≡ round n rows (record { matched = out.old; stream = self.old }) }
        ensures whole { IsMatch n out.new }
        ensures added { result ≡ matched_count out.new - matched_count out.old }
    {
        let before = out.count();
        let asked = asked_by(n, columns, out);
        let granted = self.pick_each(n, &asked);
        let offered = offered_by(n, &granted);
        let accepted = self.pick_each(n, &offered);
        feed(n, &granted, &accepted, out);
        out.count().saturating_sub(before)
    }

    // One round more after one that matched `added` outputs. After one that matched none, none is made: it would match none.
    fn one_more(
        &mut self,
        n: u32,
        added: u32,
        columns: &[Ports; PORT_COUNT],
        out: &mut Match,
    ) -> u32
        requires size { n ≤ MAX_PORTS }
        requires whole { IsMatch n out.old }
        ensures rounds { (rows : List Row) (before : RandomRounds) → AreColumns n rows columns.now
            → before.made ≡ record { matched = out.old; stream = self.old } → last_of 1 before.added ≡ added
            → record { made = record { matched = out.new; stream = self.new }; added = before.added ++ result ∷ [] } ≡ with_round n rows before }
        ensures whole { IsMatch n out.new }
    {
        if added == 0 {
            return 0;
        }
        self.round(n, columns, out)
    }

    /// Decides a slot of a switch of `n` ports in `rounds` rounds, each from 1 to 64: sets `out` to the match and answers how
    /// the rounds were used. There are `n` rows within `n`, of which unicast of level 0 alone is asked, and `out` is for `n`
    /// ports. Takes no memory.
    pub fn decide(&mut self, n: u32, rounds: u32, rows: &[Row], out: &mut Match) -> RoundsUsed
        requires some { 0 < n }
        requires size { n ≤ MAX_PORTS }
        requires rounds_few { rounds ≤ MAX_ROUNDS }
        requires rows { AreWithin n rows.now }
        ensures decision { record { matched = out.new; numbers = result; stream = self.new } ≡ pim_decision n rounds rows.now self.old }
        ensures whole { IsMatch n out.new }
    {
        let columns = columns_of(n, rows);
        *out = Match::new(n);
        let mut numbers = RoundsUsed::none();
        let mut added = 1;
        for done in 0..rounds {
            added = self.one_more(n, added, &columns, out);
            numbers = numbers.after_round(done, added);
        }
        numbers
    }
}
