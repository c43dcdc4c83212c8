ghost use Rattle.std.specs.Prelude.{◌≡◌, ◌+◌, ◌<◌, ◌≤◌, ℕ, List, [], ◌∷◌, ◌++◌, length};
ghost use Rattle.islip_rounds.specs.Numbers.{numbers_of};

use rotating_pick::MAX_ROUNDS;

/// How the rounds of a slot were used.
#[derive(Clone, Copy, Debug, PartialEq, Eq)]
pub struct RoundsUsed {
    /// How many rounds added a pair.
    pub used: u32,
    /// How many outputs the first round matched.
    pub first: u32,
    /// How many outputs the last of all rounds matched, 0 where fewer rounds than all added a pair.
    pub last_added: u32,
}

impl RoundsUsed {
    /// The numbers of a slot before its first round.
    pub fn none() -> RoundsUsed
        ensures { result ≡ numbers_of [] }
    {
        RoundsUsed {
            used: 0,
            first: 0,
            last_added: 0,
        }
    }

    /// The numbers after one more round, which matched `added` outputs; `rounds` were before it.
    pub fn after_round(self, rounds: u32, added: u32) -> RoundsUsed
        requires used { self.used ≤ rounds }
        requires rounds { rounds < MAX_ROUNDS }
        ensures numbers { (each : List ℕ) → length each ≡ rounds → self ≡ numbers_of each → result ≡ numbers_of (each ++ added ∷ []) }
        ensures used { result.used ≤ rounds + 1 }
        ensures more { 0 < added → result.used ≡ self.used + 1 }
        ensures last { 0 < added → self.used ≡ rounds → result.last_added ≡ added }
    {
        let used = if added > 0 { self.used + 1 } else { self.used };
        RoundsUsed {
            used,
            first: if rounds == 0 { added } else { self.first },
            last_added: if used == rounds + 1 { added } else { 0 },
        }
    }
}
