ghost use Rattle.std.specs.Prelude.{◌≡◌, ℕ, ◌-◌, ◌<◌, ◌↔◌, slice_index};
ghost use Rattle.std.specs.Int.{bit_at};
ghost use Rattle.rotating_pick.specs.PortSets.{Has};
ghost use Rattle.rotating_pick.specs.declared.limits.TheConstants.{MAX_PORTS};
ghost use Rattle.islip_rounds.specs.ExchangeSteps.{bit_of, take_bit};

use rotating_pick::{MAX_PORTS, PORT_COUNT, Ports};

// The number of bits of a port's number.
const PORT_BITS: u32 = 6;

/// Turns the rows of a square into its columns: port i is in set j after it exactly where port j was in
/// set i before.
pub fn turn_square(rows: &mut [Ports; PORT_COUNT])
    ensures { (i j : ℕ) → i < MAX_PORTS → j < MAX_PORTS → Has (slice_index rows.new j) i ↔ Has (slice_index rows.old i) j }
{
    for step in 0..PORT_BITS {
        exchange(rows, PORT_BITS - 1 - step);
    }
}

// Exchanges bit `k` of a row's number with that of a column's.
fn exchange(rows: &mut [Ports; PORT_COUNT], k: u32)
    requires { k < PORT_BITS }
    ensures { (r c : ℕ) → r < MAX_PORTS → c < MAX_PORTS → bit_of rows.new r c ≡ bit_of rows.old (take_bit k r c) (take_bit k c r) }
{
    let width = 1 << k;
    let mask = without_bit(k);
    for r in 0..PORT_COUNT {
        if r & width == 0 {
            let (high, low) = (rows[r], rows[r + width]);
            let moved = ((high >> width) ^ low) & mask;
            rows[r] = high ^ (moved << width);
            rows[r + width] = low ^ moved;
        }
    }
}

// The columns whose number has no bit `k`.
fn without_bit(k: u32) -> Ports
    requires { k < PORT_BITS }
    ensures { (c : ℕ) → c < MAX_PORTS → bit_at result c ≡ 1 - bit_at c k }
{
    match k {
        0 => 0x5555_5555_5555_5555,
        1 => 0x3333_3333_3333_3333,
        2 => 0x0f0f_0f0f_0f0f_0f0f,
        3 => 0x00ff_00ff_00ff_00ff,
        4 => 0x0000_ffff_0000_ffff,
        _ => 0x0000_0000_ffff_ffff,
    }
}
