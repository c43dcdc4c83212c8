ghost use Rattle.std.specs.Prelude.{◌≡◌, ◌+◌, ◌*◌, ◌<◌};
ghost use Rattle.rotating_pick.specs.declared.kinds.Kind.TheVariants.{Uni};
ghost use Rattle.rotating_pick.specs.declared.limits.TheConstants.{LEVELS};
ghost use Rattle.eslip_rounds.specs.Rounds.{preferred};
ghost use Rattle.eslip_rounds.specs.RankSteps.{level_at, kind_at, rank_of, set_at};
ghost use Rattle.eslip_rounds.specs.Rounds.{other_kind};

use rotating_pick::{Kind, MAX_PORTS};

/// The number of ranks: two kinds of four levels.
pub(crate) const RANKS: usize = 8;

/// The number of sets of a row: for each level that of unicast and that of multicast. The number of a set is its rank
/// where unicast is preferred.
pub(crate) const SETS: usize = RANKS;

/// The kind that the slot prefers: unicast in even slots, multicast in odd ones.
pub(crate) fn preferred_kind(slot: u32) -> Kind
    ensures { result ≡ preferred slot }
{
    if slot % 2 == 0 {
        Kind::Uni
    } else {
        Kind::Multi
    }
}

/// The level of a rank.
pub(crate) fn level_of(rank: u32) -> u8
    requires { rank < RANKS }
    ensures value { result ≡ level_at rank }
    ensures level_in { result < LEVELS }
{
    (rank / 2) as u8
}

/// The kind of a rank, where `first_kind` is preferred.
pub(crate) fn kind_of(first_kind: Kind, rank: u32) -> Kind
    ensures { result ≡ kind_at first_kind rank }
{
    if rank % 2 == 0 {
        first_kind
    } else {
        other(first_kind)
    }
}

/// The set of a rank, where `first_kind` is preferred.
pub(crate) fn set_of(first_kind: Kind, rank: u32) -> usize
    requires { rank < RANKS }
    ensures value { result ≡ set_at first_kind rank }
    ensures set_in { result < SETS }
{
    let other = if rank % 2 == 0 { rank + 1 } else { rank - 1 };
    match first_kind {
        Kind::Uni => rank as usize,
        Kind::Multi => other as usize,
    }
}

/// The set of the level and kind.
pub(crate) fn set_at_level(level: u8, kind: Kind) -> usize
    requires { level < LEVELS }
    ensures value { result ≡ rank_of Uni level kind }
    ensures set_in { result < SETS }
{
    match kind {
        Kind::Uni => level as usize * 2,
        Kind::Multi => set_of_heads(level),
    }
}

/// The set of the multicast heads of the level.
pub(crate) fn set_of_heads(level: u8) -> usize
    requires { level < LEVELS }
    ensures value { result ≡ 2 * level + 1 }
    ensures set_in { result < SETS }
{
    level as usize * 2 + 1
}

fn other(kind: Kind) -> Kind
    ensures { result ≡ other_kind kind }
{
    match kind {
        Kind::Uni => Kind::Multi,
        Kind::Multi => Kind::Uni,
    }
}
