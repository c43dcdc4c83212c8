ghost use Rattle.std.specs.Prelude.{◌≡◌, ◌⊎◌, ◌-◌, ◌<◌, ◌≤◌, ◌^◌, ℕ, List, [], length, vec_capacity};
ghost use Rattle.slot_board.specs.Turns.{setup_of};
ghost use Rattle.card_core.specs.Plans.{Plan as CardPlan};
ghost use Rattle.card_worker.specs.Groups.{AreGroups};
ghost use Rattle.card_worker.specs.Alone.{AreHandsOf, IsOver};
ghost use Rattle.switch_plan.specs.GoodPlans.{SwitchPlan, IsGood};
ghost use Rattle.run_laws.specs.Runs.{setup_for};
ghost use Rattle.switch_jobs.specs.SharingSteps.{ArePlanned};
ghost use Rattle.switch_jobs.specs.EndingSteps.{AreLeft, AreOfPlans, IsRunOf};
ghost use Rattle.switch_jobs.specs.OneJournal.{GoesOnFrom, HaveWaited};

use card_core::CardOut;
use card_worker::{Group, Hand, Hands, close_with, disband, finish_alone, laws};
use run_laws::{boards, ends};
use slot_board::{Board, BoardState, Seats};

/// Disbands the groups into the two empty lists, which have room for all, closes the board, and makes on this
/// thread what is left of the run: the events of the board and those made here are one legal list. It takes no
/// memory.
pub(crate) fn end_run(
    board: Board,
    groups: Vec<Group>,
    seats: Seats,
    hands: Hands,
) -> (BoardState, Hands)
    requires groups { AreGroups board board.seats groups.items }
    requires empty { (seats.items ≡ []) × (hands.items ≡ []) }
    requires seat_room { board.seats ≤ vec_capacity seats }
    requires hand_room { board.seats ≤ vec_capacity hands }
    ensures hands { AreHandsOf result.1.items result.0 }
    ensures setup { result.0.setup ≡ setup_of board.numbers }
    ensures journal { GoesOnFrom board groups.items result.0 }
    ensures over { (i : ℕ) → i < result.0.setup.ports → IsOver result.0.setup i result.0.events }
    ensures planned { (plans : List CardPlan) → ArePlanned plans groups.items → AreOfPlans plans result.1.items }
    ensures refused { (patience : ℕ) → HaveWaited patience groups.items → (result.0.refused ≡ patience) ⊎ (result.0.refused ≡ 2 ^ 64 - 1) }
{
    board.legal();
    laws::disbanded_groups_agree();
    let (seats, mut hands) = disband(groups, seats, hands);
    let mut state = close_with(board, seats, &hands);
    finish_alone(&mut hands, &mut state);
    (state, hands)
}

/// What the hands' cards leave, by card, in this empty list, which has room for all. It takes no memory.
pub(crate) fn finish_cards(hands: Hands, outputs: Vec<CardOut>) -> Vec<CardOut>
    requires empty { outputs.items ≡ [] }
    requires room { length hands.items ≤ vec_capacity outputs }
    ensures { AreLeft hands.items result.items }
{
    let mut outputs = outputs;
    for hand in hands {
        outputs.push_reserved(hand.card.finish());
    }
    outputs
}

/// What the laws of runs say where no card can go on at a board, and each has posted what its plan gives. It
/// does nothing.
pub(crate) fn run_is_made(state: &BoardState, hands: &[Hand])
    requires hands { AreHandsOf hands.now state.now }
    requires over { (i : ℕ) → i < state.now.setup.ports → IsOver state.now.setup i state.now.events }
    ensures { (plan : SwitchPlan) → IsGood plan → state.now.setup ≡ setup_for plan → AreOfPlans plan.cards hands.now → IsRunOf plan state.now hands.now }
{
    boards::driven_boards_make_the_run();
    boards::finished_boards_end_the_run();
    boards::all_takings_are_given();
    ends::runs_end();
    ends::lengths_are_one();
    state.legal();
}
