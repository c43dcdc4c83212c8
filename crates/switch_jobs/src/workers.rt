ghost use Rattle.std.specs.Prelude.{◌<◌, ℕ, List, All, length, slice_index_or};
ghost use Rattle.card_core.specs.Plans.{Plan as CardPlan};
ghost use Rattle.card_worker.specs.declared.hands.Group.{Group};
ghost use Rattle.card_worker.specs.Groups.{AreGroups, IsGroup, IsDrivenGroup};
ghost use Rattle.switch_jobs.specs.OneJournal.{HaveWaited};
ghost use Rattle.switch_jobs.specs.SharingSteps.{ArePlanned, AreUnrefused};

use card_worker::{Gate, Group, drive, laws};
use slot_board::Board;
use std::thread;
use std::thread::Threads;

/// Drives the groups of the board, each on a thread of its own, until no member goes on. Then each member that is due
/// was refused exactly `patience` times, where none had been refused before. It takes no memory.
pub(crate) fn drive_groups<R: Threads + Sync, G: Gate + Sync>(
    rt: &R,
    board: &Board,
    groups: &mut [Group],
    gate: &G,
    patience: u32,
)
    requires groups { AreGroups board.now board.now.seats groups.old }
    requires some { 0 < length groups.old }
    ensures groups { AreGroups board.now board.now.seats groups.new }
    ensures planned { (plans : List CardPlan) → ArePlanned plans groups.old → ArePlanned plans groups.new }
    ensures waited { AreUnrefused groups.old → HaveWaited patience groups.new }
{
    board.legal();
    laws::driven_groups_stay();
    drive_each(rt, board, groups, gate, patience);
}

// Drives each group, all at once.
fn drive_each<R: Threads + Sync, G: Gate + Sync>(
    rt: &R,
    board: &Board,
    groups: &mut [Group],
    gate: &G,
    patience: u32,
)
    requires groups { All (λ group. IsGroup board.now group) groups.old }
    requires some { 0 < length groups.old }
    ensures { (i : ℕ) (d : Group) → i < length groups.old → IsDrivenGroup board.now patience (slice_index_or groups.old i d) (slice_index_or groups.new i d) }
{
    let threads = groups.len();
    thread::for_each_mut(
        rt,
        groups,
        threads,
        &|_, group| drive_one(board, group, gate, patience),
    );
}

// Drives a group.
fn drive_one<G: Gate>(board: &Board, group: &mut Group, gate: &G, patience: u32)
    requires { IsGroup board.now group.old }
    ensures { IsDrivenGroup board.now patience group.old group.new }
{
    drive(group, board, gate, patience);
}
