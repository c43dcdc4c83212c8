ghost use Rattle.std.specs.Prelude.{◌≡◌, ◌<◌, ◌≤◌};
ghost use Rattle.made_traffic.specs.Patterns.{any_output, output_by, pattern_named, pattern_word, weighed_output, weight_of};

use crate::limits::MILLION;
use crate::streams::HALF;
use rotating_pick::MAX_PORTS;

/// Where the cells of an input go. All cells of a burst go to one output, which is drawn when the burst begins.
#[derive(Clone, Copy, Debug, PartialEq, Eq)]
pub enum Pattern {
    /// `uniform`: to each output with the same chance, to within 2^-32.
    Uniform,
    /// `diagonal`: from input i to output i with the chance 2/3, and to output i + 1 with 1/3; from the last input to
    /// the last output and to output 0 (P. Giaccone, B. Prabhakar and D. Shah, IEEE INFOCOM 2002).
    Diagonal,
    /// `log-diagonal`: from input i of n to the output d places on with the chance 2^(n-1-d) / (2^n - 1), so each gets
    /// half of what the one before gets (the same).
    LogDiagonal,
    /// `hot-spot`: to output 0 with this share, and else to each output with the same chance.
    HotSpot {
        /// The share, in millionths: 0 to 1,000,000.
        weight: u32,
    },
    /// `unbalanced`: to the output of the input's own number with this share, and else to each output with the same
    /// chance (R. Rojas-Cessa, E. Oki, Z. Jing and H. J. Chao, IEEE HPSR 2001). With 1,000,000 millionths it is a
    /// permutation.
    Unbalanced {
        /// The share, in millionths: 0 to 1,000,000.
        weight: u32,
    },
}

impl Pattern {
    /// The pattern of this name, letter for letter, with this weight. None where there is none of the name, where it
    /// has a weight and none is given, and where it has none and one is given.
    pub fn named(word: &str, weight: Option<u32>) -> Option<Pattern>
        ensures { result ≡ pattern_named word.now weight }
    {
        match (word, weight) {
            ("uniform", None) => Some(Pattern::Uniform),
            ("diagonal", None) => Some(Pattern::Diagonal),
            ("log-diagonal", None) => Some(Pattern::LogDiagonal),
            ("hot-spot", Some(weight)) => Some(Pattern::HotSpot { weight }),
            ("unbalanced", Some(weight)) => Some(Pattern::Unbalanced { weight }),
            _ => None,
        }
    }

    /// Its name.
    pub fn word(self) -> &'static str
        ensures { result.now ≡ pattern_word self }
    {
        match self {
            Pattern::Uniform => "uniform",
            Pattern::Diagonal => "diagonal",
            Pattern::LogDiagonal => "log-diagonal",
            Pattern::HotSpot { weight: _ } => "hot-spot",
            Pattern::Unbalanced { weight: _ } => "unbalanced",
        }
    }

    /// Its weight, in millionths: 0 for a pattern that has none.
    pub fn weight(self) -> u32
        ensures { result ≡ weight_of self }
    {
        match self {
            Pattern::Uniform | Pattern::Diagonal | Pattern::LogDiagonal => 0,
            Pattern::HotSpot { weight } | Pattern::Unbalanced { weight } => weight,
        }
    }

    /// The output of a burst that begins at an input of `n` ports, by a word.
    pub(crate) fn output(self, n: u32, input: u32, word: u64) -> u32
        requires size { n ≤ MAX_PORTS }
        requires input { input < n }
        requires weight { weight_of self ≤ MILLION }
        ensures value { result ≡ output_by self n input word }
        ensures port { result < n }
    {
        match self {
            Pattern::Uniform => any_output(n, word),
            Pattern::Diagonal => {
                if word / HALF * 3 < 2 * HALF {
                    input
                } else {
                    (input + 1) % n
                }
            }
            Pattern::LogDiagonal => (input + word.leading_zeros() % n) % n,
            Pattern::HotSpot { weight } => weighed_output(n, weight, 0, word),
            Pattern::Unbalanced { weight } => weighed_output(n, weight, input, word),
        }
    }
}

// One of n outputs, each with the same chance, by a word.
fn any_output(n: u32, word: u64) -> u32
    requires some { 0 < n }
    requires size { n ≤ MAX_PORTS }
    ensures value { result ≡ any_output n word }
    ensures port { result < n }
{
    (word % HALF * u64::from(n) / HALF) as u32
}

// The chosen output of n with a share of so many millionths, and else any, by a word.
fn weighed_output(n: u32, weight: u32, chosen: u32, word: u64) -> u32
    requires size { n ≤ MAX_PORTS }
    requires weight { weight ≤ MILLION }
    requires chosen { chosen < n }
    ensures value { result ≡ weighed_output n weight chosen word }
    ensures port { result < n }
{
    if word / HALF * u64::from(MILLION) < u64::from(weight) * HALF {
        chosen
    } else {
        any_output(n, word)
    }
}
