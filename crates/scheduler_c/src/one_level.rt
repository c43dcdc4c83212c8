ghost use Rattle.std.specs.Prelude.{◌≡◌, ◌↔◌, ◌⊎◌, IsTrue};
ghost use Rattle.scheduler_c.specs.Words.{ArePorts};
ghost use Rattle.scheduler_c.specs.OneLevel.{IsUniCall, IsUniAnswer};

use crate::status::{DONE, REFUSED};
use crate::words::{
    RoundsWords, are_ports, are_sets, is_size, put_fed, put_table, rounds_words, table_of,
};
use islip_rounds::{UniMatch, UniPointers, islip_slot};
use rotating_pick::{PORT_COUNT, Ports};

/// One slot of iSLIP for one level of unicast, for `n` ports and `rounds` rounds, each from 1 to 64.
/// `asks` has for each input the outputs that it asks, as bits. `grant` has for each output and `accept`
/// for each input the port that its pointer is at, before and then after; all are below `n`. `fed` gets for
/// each output the input that feeds it, 0xffffffff where it is free.
#[unsafe(no_mangle)]
pub extern "C" fn tiny_tera_islip_slot(
    n: u32,
    rounds: u32,
    asks: &[Ports],
    grant: &mut [u32],
    accept: &mut [u32],
    fed: &mut [u32],
    used: &mut RoundsWords,
) -> u32
    // It answers 0 exactly where the words may be passed, and else 1.
    ensures done { (result ≡ 0) ↔ IsUniCall n rounds asks.now grant.old accept.old fed.old }
    ensures status { (result ≡ 0) ⊎ (result ≡ 1) }
    ensures slot { result ≡ 0 → IsUniAnswer n rounds asks.now grant.old accept.old fed.new used.new grant.new accept.new }
    ensures again { result ≡ 0 → ArePorts n grant.new × ArePorts n accept.new }
    ensures refused { result ≡ 1 → (grant.new ≡ grant.old) × (accept.new ≡ accept.old) × (fed.new ≡ fed.old) × (used.new ≡ used.old) }
{
    if !may_pass(n, rounds, asks, grant, accept, fed) {
        return REFUSED;
    }
    let mut pointers = UniPointers {
        grant: table_of(grant),
        accept: table_of(accept),
    };
    let mut matched = UniMatch {
        fed: [None; PORT_COUNT],
    };
    let numbers = islip_slot(n, rounds, asks, &mut pointers, &mut matched);
    put_table(&pointers.grant, grant);
    put_table(&pointers.accept, accept);
    put_fed(&matched.fed, fed);
    *used = rounds_words(numbers);
    DONE
}

// Whether the words may be passed.
fn may_pass(n: u32, rounds: u32, asks: &[Ports], grant: &[u32], accept: &[u32], fed: &[u32]) -> bool
    ensures { IsTrue result ↔ IsUniCall n rounds asks.now grant.now accept.now fed.now }
{
    is_size(n, rounds)
        && are_sets(n, asks)
        && are_ports(n, grant)
        && are_ports(n, accept)
        && fed.len() == n as usize
}
