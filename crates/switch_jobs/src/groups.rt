ghost use Rattle.std.specs.Prelude.{◌≡◌, ◌+◌, ◌<◌, ℕ, List, Some, length, slice_get};
ghost use Rattle.slot_board.specs.Seats.{refusals};
ghost use Rattle.card_core.specs.Plans.{Plan as CardPlan};
ghost use Rattle.card_worker.specs.Trying.{IsMember};
ghost use Rattle.card_worker.specs.Groups.{AreGroups};
ghost use Rattle.switch_jobs.specs.ReadinessSteps.{plans_in, AreMembers, AreEmptyGroups, HaveRoomFor};
ghost use Rattle.switch_jobs.specs.SharingSteps.{ArePlanned, AreUnrefused, AreShared};

use card_worker::{Group, Member, laws};
use slot_board::Board;
use std::thread::{Threads, available_parallelism};

// The fewest groups where more are asked for than there are processors, so that several workers meet on each
// machine.
const FEWEST_GROUPS: usize = 2;

/// The first of the groups: as many as there are processors, since a worker that has none only makes the
/// others wait, but two where there are two. All of them where the number of processors is not known.
pub(crate) fn for_processors<R: Threads>(rt: &R, groups: Vec<Group>) -> Vec<Group>
    requires some { 0 < length groups.items }
    requires empty { AreEmptyGroups groups.items }
    ensures some { 0 < length result.items }
    ensures empty { AreEmptyGroups result.items }
    ensures room { (room : ℕ) → HaveRoomFor room groups.items → HaveRoomFor room result.items }
{
    let mut groups = groups;
    groups.truncate(processors(rt).max(FEWEST_GROUPS));
    groups
}

fn processors<R: Threads>(rt: &R) -> usize {
    match available_parallelism(rt) {
        Ok(count) => count.get(),
        Err(_) => usize::MAX,
    }
}

/// Shares the members of the board among groups that are empty and have room for all: they go to the groups
/// in turn. It takes no memory.
pub(crate) fn share(board: &Board, members: Vec<Member>, groups: Vec<Group>) -> Vec<Group>
    requires members { AreMembers board.now members.items }
    requires some { 0 < length groups.items }
    requires empty { AreEmptyGroups groups.items }
    requires room { HaveRoomFor (length members.items) groups.items }
    ensures shared { AreShared board.now (plans_in members.items) result.items }
    ensures count { length result.items ≡ length groups.items }
{
    let mut groups = groups;
    let mut card: usize = 0;
    for member in members {
        let place = place_for(card, groups.len());
        join(board, &mut groups, place, card, member);
        card += 1;
    }
    groups
}

// The group of the card: the groups have the cards in turn.
fn place_for(card: usize, groups: usize) -> usize
    requires { 0 < groups }
    ensures { result < groups }
{
    card % groups
}

// Puts the next card's member into the group at the place, which has room for it.
fn join(board: &Board, groups: &mut Vec<Group>, place: usize, card: usize, member: Member)
    requires groups { AreGroups board.now card groups.old.items }
    requires place { place < length groups.old.items }
    requires room { HaveRoomFor (card + 1) groups.old.items }
    requires member { IsMember board.now member }
    requires number { member.seat.number ≡ card }
    ensures groups { AreGroups board.now (card + 1) groups.new.items }
    ensures planned { (plans : List CardPlan) → ArePlanned plans groups.old.items → slice_get plans card ≡ Some member.hand.card.sends.plan
        → ArePlanned plans groups.new.items }
    ensures unrefused { AreUnrefused groups.old.items → refusals member.seat ≡ 0 → AreUnrefused groups.new.items }
    ensures room { (room : ℕ) → HaveRoomFor room groups.old.items → HaveRoomFor room groups.new.items }
    ensures count { length groups.new.items ≡ length groups.old.items }
{
    laws::groups_grow();
    let group = &mut groups[place];
    group.members.push_reserved(member);
}
