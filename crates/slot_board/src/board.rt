ghost use Rattle.std.specs.Prelude.{◌≡◌, ◌+◌, ◌^◌, ◌<◌, ◌≤◌, false, [], ◌∷◌, length, IfOk, IfErr};
ghost use Rattle.turn_lock.specs.Seats.{busy, AreNewSeats};
ghost use Rattle.slot_board.specs.Turns.{setup_of};
ghost use Rattle.slot_histories.specs.Columns.{with_post, with_taking};
ghost use Rattle.slot_board.specs.Seats.{column_at, slot_of, IsPosted, is_done, Accepts, HasPosted, HasTaken, IsWait};
ghost use Rattle.slot_board.specs.Columns.{IsBoard};
ghost use Rattle.slot_board.specs.Calls.{AfterPost, AfterTaking, AfterRefusal};

use crate::acts::{KeptState, PostAct, TakeAct};
use crate::new_seats::card_seats;
use crate::seat::{CardSeat, Seats};
use crate::waits::TakeWait;
use board_state::{BoardState, MAX_SLOTS, MAX_SLOTS_WIDE};
use crossbar::{Post, Taken};
use rotating_pick::{MAX_PORTS, MAX_ROUNDS, OutOfMemory};
use std::alloc::Global;
use std::marker::Model;
use turn_lock::{Busy, Turn};

/// A board that line cards share. Contracts see its turn lock, whose fixed numbers are the board's ports,
/// rounds and slots.
#[derive(Drop)]
pub struct Board {
    pub(crate) turn: Turn<KeptState>,
    pub(crate) max_slots: u32,
}

impl Model for Board {
    ghost use Rattle.std.specs.Prelude.{◌≡◌};
    ghost use Rattle.slot_histories.specs.declared.events.Event.{Event};
    ghost use Rattle.turn_lock.specs.Seats.{TurnValue};
    ghost use Rattle.slot_board.specs.Turns.{setup_of};
    ghost use Rattle.slot_board.specs.Columns.{IsBoard};

    ghost Value = { TurnValue Event };

    ghost view = { λ b. b.turn };

    ghost invariant = { λ b. IsBoard b.turn × (b.max_slots ≡ (setup_of b.turn.numbers).max_slots) };
}

impl Board {
    /// A board of `n` ports, 1 to 64, with `rounds` rounds a slot, 1 to 64, on which at most `max_slots`
    /// slots are posted, 1 to `MAX_SLOTS`, and to `MAX_SLOTS_WIDE` for more than 32 ports; and its seats,
    /// that of card i at place i. It takes the memory for all that comes after. Out of memory is the
    /// only error.
    pub fn make(
        alloc: Global,
        n: u32,
        rounds: u32,
        max_slots: u32,
    ) -> Result<(Board, Seats), OutOfMemory>
        requires ports { (0 < n) × (n ≤ MAX_PORTS) }
        requires rounds { (0 < rounds) × (rounds ≤ MAX_ROUNDS) }
        requires slots { (0 < max_slots) × (max_slots ≤ MAX_SLOTS) × (32 < n → max_slots ≤ MAX_SLOTS_WIDE) }
        ensures first { IfOk result (λ made. made.0.first ≡ []) }
        ensures numbers { IfOk result (λ made. made.0.numbers ≡ n ∷ rounds ∷ max_slots ∷ []) }
        ensures count { IfOk result (λ made. made.0.seats ≡ n) }
        ensures seats { IfOk result (λ made. AreNewSeats made.0 made.1.items) }
    {
        let state = BoardState::make(alloc, n, rounds, max_slots)?;
        state.legal();
        let boxed = Box::new(alloc, state)?;
        let (turn, turn_seats) = Turn::make(alloc, KeptState { state: boxed }, n)?;
        let seats = card_seats(alloc, turn_seats, n)?;
        let board = Board { turn, max_slots };
        Ok((board, seats))
    }

    /// The board began with no event, and its setup is within the limits.
    pub fn legal(&self)
        ensures { IsBoard self.now }
    {
        // Reads a field: that tells the proof what the type says of its value.
        let _ = &self.max_slots;
    }

    /// The most slots that may be posted.
    pub fn max_slots(&self) -> u32
        ensures { result ≡ (setup_of self.now.numbers).max_slots }
    {
        self.max_slots
    }

    /// A try to post for the card's slot. Where this is the slot's last post, the slot is decided with it.
    ///
    /// Ok where the card had the board. Busy where another card had it, or where there were as many turns
    /// as a `u64` counts, which on a board of one port is the one cause: the post comes back as `act`, and
    /// nothing changes but the seat's count of refused tries.
    pub fn try_post(&self, seat: &mut CardSeat, post: Post) -> Result<(), Busy<Post>>
        requires seat { seat.old.turn ≡ self.now }
        requires not_posted { IsPosted seat.old → ⊥ }
        requires not_done { is_done seat.old ≡ false }
        requires room { slot_of seat.old < (setup_of self.now.numbers).max_slots }
        requires accepted { Accepts seat.old post }
        ensures same { (seat.new.turn ≡ seat.old.turn) × (seat.new.number ≡ seat.old.number) }
        ensures posted { IfOk result (λ _. HasPosted post seat.old seat.new) }
        ensures column { IfOk result (λ _. column_at seat.new ≡ with_post (column_at seat.old) post) }
        ensures after { IfOk result (λ _. AfterPost seat.old seat.new) }
        ensures busy { IfErr result (λ back. (back.act ≡ post) × (seat.new ≡ busy seat.old)) }
        ensures alone { IfErr result (λ _. (setup_of self.now.numbers).ports ≡ 1 → 2 ^ 64 ≤ length seat.old.seen + 1) }
        ensures refused { IfErr result (λ _. AfterRefusal seat.old seat.new) }
    {
        let act = PostAct {
            card: seat.card,
            post: &post,
        };
        match self.turn.try_turn(&mut seat.seat, act) {
            Ok(()) => {
                seat.posted = true;
                seat.last = post.row;
                Ok(())
            }
            Err(_) => {
                seat.refused = seat.refused.saturating_add(1);
                Err(Busy { act: post })
            }
        }
    }

    /// A try to take the card's part of its slot, which it has posted. The part is that of the card's own
    /// slot, however late it comes.
    ///
    /// `NotYet` where the card had the board and some card has not posted this slot yet, `Busy` as for
    /// [`Board::try_post`]. Either is a refused try.
    pub fn try_take(&self, seat: &mut CardSeat) -> Result<Taken, TakeWait>
        requires seat { seat.old.turn ≡ self.now }
        requires posted { IsPosted seat.old }
        ensures same { (seat.new.turn ≡ seat.old.turn) × (seat.new.number ≡ seat.old.number) }
        ensures taken { IfOk result (λ taken. HasTaken taken seat.old seat.new) }
        ensures column { IfOk result (λ taken. column_at seat.new ≡ with_taking (column_at seat.old) taken) }
        ensures after { IfOk result (λ taken. AfterTaking taken seat.old seat.new) }
        ensures wait { IfErr result (λ wait. IsWait wait seat.old seat.new) }
        ensures alone { IfErr result (λ wait. wait ≡ TakeWait.Busy → (setup_of self.now.numbers).ports ≡ 1 → 2 ^ 64 ≤ length seat.old.seen + 1) }
        ensures refused { IfErr result (λ _. AfterRefusal seat.old seat.new) }
        ensures stays { IfErr result (λ _. column_at seat.new ≡ column_at seat.old) }
    {
        let act = TakeAct { card: seat.card };
        match self.turn.try_turn(&mut seat.seat, act) {
            Ok(drawn) => {
                if drawn.ready {
                    seat.slot += 1;
                    seat.posted = false;
                    seat.done = drawn.taken.done;
                    seat.served = drawn.taken.served;
                    Ok(drawn.taken)
                } else {
                    seat.refused = seat.refused.saturating_add(1);
                    Err(TakeWait::NotYet {
                        posted: drawn.posted,
                    })
                }
            }
            Err(_) => {
                seat.refused = seat.refused.saturating_add(1);
                Err(TakeWait::Busy)
            }
        }
    }
}
