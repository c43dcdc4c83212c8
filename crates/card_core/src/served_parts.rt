ghost use Rattle.std.specs.Prelude.{ℕ, ◌↔◌, IsTrue};
ghost use Rattle.card_core.specs.Posts.{IsServable, IsOneFor};
ghost use Rattle.slot_histories.specs.Parts.{IsPartOf};
ghost use Rattle.rotating_pick.specs.PortSets.{Has};

use rotating_pick::{Kind, LEVELS, Ports, is_empty, is_subset, only};
use slot_match::{Row, Served};

/// Whether the part may be served of the row: nothing, or some of the outputs that the row names at the
/// level with the kind, one for unicast.
pub(crate) fn is_servable(row: &Row, served: Option<Served>) -> bool
    ensures { IsTrue result ↔ IsServable row.now served }
{
    match served {
        Some(part) => is_part(row, part),
        None => true,
    }
}

// Whether the level is one, and the outputs are some of those that the row names, one for unicast.
fn is_part(row: &Row, part: Served) -> bool
    ensures { IsTrue result ↔ IsPartOf row.now part }
{
    u32::from(part.level) < LEVELS
        && is_subset(part.outputs, row.outputs(part.level, part.kind))
        && is_some(part.outputs, part.kind)
}

// Whether there is an output, and for unicast no other.
fn is_some(outputs: Ports, kind: Kind) -> bool
    ensures { IsTrue result ↔ (((j : ℕ) × Has outputs j) × IsOneFor kind outputs) }
{
    match kind {
        Kind::Uni => only(outputs).is_some(),
        Kind::Multi => !is_empty(outputs),
    }
}
