ghost use Rattle.std.specs.Prelude.{◌≡◌};
ghost use Rattle.made_traffic.specs.Streams.{stream_at_first};

use rand_core::SeedableRng;
use rand_core::utils::NextWord;
use rand_xoshiro::SplitMix64;

/// Half a word.
pub(crate) const HALF: u64 = 4_294_967_296;

/// Stream `number`, 0 to 255, of a seed: random words by SplitMix64 (G. L. Steele, D. Lea and C. H. Flood, OOPSLA 2014;
/// the kit's `rand_xoshiro`), from where the first word of the generator that begins at 256 times the seed and the
/// number says. Streams 0 to 63 are those of the inputs. Streams of other seeds or numbers begin elsewhere.
pub fn stream(seed: u32, number: u8) -> SplitMix64
    ensures { result ≡ stream_at_first seed number }
{
    let mut seeds = SplitMix64::seed_from_u64(256 * u64::from(seed) + u64::from(number));
    SplitMix64::seed_from_u64(seeds.next_word())
}
