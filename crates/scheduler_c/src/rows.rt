ghost use Rattle.std.specs.Prelude.{◌≡◌, ℕ, ◌↔◌, ◌⊎◌, length, IsTrue};
ghost use Rattle.rotating_pick.specs.declared.kinds.Kind.{Kind};
ghost use Rattle.slot_match.specs.Rows.{Names, IsOfLevels, AreWithin};

use rotating_pick::MAX_PORTS;
use slot_match::Row;

/// Whether there is a row for each of `n` inputs, and none names an output from `n` on.
pub fn are_rows(n: u32, rows: &[Row]) -> bool
    ensures { IsTrue result ↔ AreWithin n rows.now }
{
    if rows.len() != n as usize {
        return false;
    }
    if n == MAX_PORTS {
        // Each word is a set of 64 ports. The test of a known number is compiled to nothing.
        return name_only_ports(MAX_PORTS, rows);
    }
    name_only_ports(n, rows)
}

// Whether the rows name none but the `n` outputs. It joins all of them, level by level, which takes less time than
// to look at each.
fn name_only_ports(n: u32, rows: &[Row]) -> bool
    requires { length rows.now ≡ n }
    ensures { IsTrue result ↔ AreWithin n rows.now }
{
    let mut named = Row::empty();
    for row in rows {
        join(&mut named, row);
    }
    named.within(n)
}

// Adds all that the row names.
fn join(named: &mut Row, row: &Row)
    ensures joined { (level j : ℕ) (kind : Kind) → Names named.new level kind j ↔ (Names named.old level kind j ⊎ Names row.now level kind j) }

    // What the type of a row says, for a proof that has only the row's value.
    ensures levels { IsOfLevels row.now }
{
    // Read field by field: that tells the proof the lengths of both, which a row behind a reference does not.
    let row = Row {
        uni: row.uni,
        multi: row.multi,
    };
    named.join(&row);
}
