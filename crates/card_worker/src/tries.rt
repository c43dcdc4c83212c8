ghost use Rattle.std.specs.Prelude.{◌≡◌, true, length, None};
ghost use Rattle.slot_histories.specs.Columns.{Column};
ghost use Rattle.card_core.specs.Posts.{IsServable};
ghost use Rattle.slot_board.specs.Seats.{IsPosted, is_due};
ghost use Rattle.card_worker.specs.Agreeing.{IsInStep, IsAhead};
ghost use Rattle.card_worker.specs.AgreeingSteps.{CanPost, AfterGiving};
ghost use Rattle.card_worker.specs.Trying.{IsSound};
ghost use Rattle.card_worker.specs.TryingSteps.{AfterTry};

use crate::hands::{Gate, Hand, Member};
use card_core::Card;
use crossbar::{Post, Taken};
use slot_board::Board;

// One try of a due member.
pub(crate) fn try_member<G: Gate>(member: &mut Member, board: &Board, gate: &G, worker: u32) -> bool
    requires sound { IsSound board.now member.old }
    requires due { is_due member.old.seat ≡ true }
    ensures { AfterTry board.now member.old member.new result }
{
    gate.before(worker);
    if member.seat.posted() {
        take(member, board)
    } else {
        post(member, board)
    }
}

// A try to post. A post that is refused is kept for the next try.
fn post(member: &mut Member, board: &Board) -> bool
    requires sound { IsSound board.now member.old }
    requires due { is_due member.old.seat ≡ true }
    requires free { IsPosted member.old.seat → ⊥ }
    ensures { AfterTry board.now member.old member.new result }
{
    board.legal();
    let post = next_post(&mut member.hand);
    match board.try_post(&mut member.seat, post) {
        Ok(()) => {
            forget(&mut member.hand.kept);
            member.seat.legal();
            true
        }
        Err(busy) => {
            member.hand.kept = Some(busy.act);
            member.seat.legal();
            false
        }
    }
}

// The post that was kept, or else the card's next one.
pub(crate) fn next_post(hand: &mut Hand) -> Post
    requires { CanPost hand.old.kept hand.old.card }
    ensures plan { hand.new.card.sends.plan ≡ hand.old.card.sends.plan }
    ensures ahead { (column : Column) → IsInStep hand.old.kept hand.old.card column → length column.posts ≡ length column.takings
        → IsAhead result hand.new.card column }
{
    match hand.kept {
        Some(post) => post,
        None => hand.card.post(),
    }
}

// Lets the kept post go. Most posts were not kept, and are not written over.
pub(crate) fn forget(kept: &mut Option<Post>)
    ensures { kept.new ≡ None }
{
    if kept.is_some() {
        *kept = None;
    }
}

// A try to take.
fn take(member: &mut Member, board: &Board) -> bool
    requires sound { IsSound board.now member.old }
    requires posted { IsPosted member.old.seat }
    ensures { AfterTry board.now member.old member.new result }
{
    board.legal();
    match board.try_take(&mut member.seat) {
        Ok(taken) => {
            member.seat.legal();
            give(&mut member.hand.card, &taken);
            true
        }
        Err(_) => {
            member.seat.legal();
            false
        }
    }
}

// Gives the card what its slot gave, without its cell where that may not be put.
pub(crate) fn give(card: &mut Card, taken: &Taken)
    requires posted { card.old.sends.posted ≡ true }
    requires slot { taken.now.slot ≡ card.old.sends.slot }
    requires served { IsServable card.old.sends.row taken.now.served }
    ensures { AfterGiving taken.now card.old card.new }
{
    if card.may_take(taken) {
        card.take(taken);
    } else {
        let bare = Taken {
            cell: None,
            ..*taken
        };
        card.take(&bare);
    }
}
