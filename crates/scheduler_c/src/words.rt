ghost use Rattle.std.specs.Prelude.{◌≡◌, ℕ, ◌<◌, ◌≤◌, ◌↔◌, None, length, slice_index, slice_index_or, IsTrue};
ghost use Rattle.scheduler_c.specs.Words.{IsSize, ArePorts, AreSets, AreSame, port_word};
ghost use Rattle.scheduler_c.specs.Numbers.{numbers_from};

use islip_rounds::RoundsUsed;
use rotating_pick::{MAX_PORTS, MAX_ROUNDS, PORT_COUNT, Ports, is_among};

/// The word of no port.
pub const NO_PORT: u32 = 0xffff_ffff;

/// How the rounds of a slot were used.
#[repr(C)]
#[derive(Clone, Copy, Debug, PartialEq, Eq)]
pub struct RoundsWords {
    /// How many rounds added a pair.
    pub used: u32,
    /// How many outputs the first round matched.
    pub first: u32,
    /// How many outputs the last of all rounds matched, 0 where fewer rounds than all added a pair.
    pub last_added: u32,
}

/// The words of how the rounds were used.
pub fn rounds_words(numbers: RoundsUsed) -> RoundsWords
    ensures { numbers_from result ≡ numbers }
{
    RoundsWords {
        used: numbers.used,
        first: numbers.first,
        last_added: numbers.last_added,
    }
}

/// Whether the ports and the rounds are each from 1 to 64.
pub fn is_size(n: u32, rounds: u32) -> bool
    ensures { IsTrue result ↔ IsSize n rounds }
{
    0 < n && n <= MAX_PORTS && 0 < rounds && rounds <= MAX_ROUNDS
}

/// Whether there are `n` ports, each below `n`.
pub fn are_ports(n: u32, ports: &[u32]) -> bool
    ensures { IsTrue result ↔ ArePorts n ports.now }
{
    ports.len() == n as usize && ports.iter().all(|port| *port < n)
}

/// Whether there are `n` sets, each of the `n` ports.
pub fn are_sets(n: u32, sets: &[Ports]) -> bool
    requires some { 0 < n }
    requires size { n ≤ MAX_PORTS }
    ensures { IsTrue result ↔ AreSets n sets.now }
{
    sets.len() == n as usize && sets.iter().all(|set| is_among(n, *set))
}

/// The table of a word for each port.
pub fn table_of(words: &[u32]) -> [u32; PORT_COUNT]
    requires { length words.now ≤ MAX_PORTS }
    ensures { AreSame (length words.now) words.now result }
{
    let mut table = [0; PORT_COUNT];
    for k in 0..words.len() {
        table[k] = words[k];
    }
    table
}

/// Writes the first ports of the table, as many as there are words.
pub fn put_table(table: &[u32; PORT_COUNT], words: &mut [u32])
    requires { length words.old ≤ MAX_PORTS }
    ensures { AreSame (length words.old) words.new table.now }
{
    for k in 0..words.len() {
        words[k] = table[k];
    }
}

/// Writes for each output the word of the input that feeds it.
pub fn put_fed(fed: &[Option<u32>; PORT_COUNT], words: &mut [u32])
    requires { length words.old ≤ MAX_PORTS }
    ensures { (j : ℕ) → j < length words.old → slice_index words.new j ≡ port_word (slice_index_or fed.now j None) }
{
    for j in 0..words.len() {
        words[j] = port_word(fed[j]);
    }
}

fn port_word(port: Option<u32>) -> u32
    ensures { result ≡ port_word port }
{
    match port {
        Some(port) => port,
        None => NO_PORT,
    }
}
