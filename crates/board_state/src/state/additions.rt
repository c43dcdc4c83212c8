ghost use Rattle.std.specs.Prelude.{◌≡◌};
ghost use Rattle.slot_histories.specs.declared.events.Event.{Event};
ghost use Rattle.slot_histories.specs.Events.{takes_of, decides, posted};
ghost use Rattle.slot_histories.specs.Slots.{decision_at, taken_at};
ghost use Rattle.slot_histories.specs.Legal.{MayPost, MayDecide, MayTake};
ghost use Rattle.board_state.specs.Boards.{with_event};

use crate::counts::raise;
use crate::posts::{is_last, posts_at, write_post};
use crate::state::BoardState;
use crossbar::{Post, Taken, put_rows};
use eslip_rounds::decide_in;
use islip_rounds::RoundsUsed;
use rotating_pick::{MAX_PORTS, with};
use slot_match::Match;

// The byte of a decision in the order of events. A card's number is that of its post, and with
// `MAX_PORTS` more that of its take.
const DECISION: u8 = 128;

impl BoardState {
    // Notes a post, which may come.
    pub(super) fn add_post(&mut self, card: u32, post: &Post)
        requires { MayPost self.old.setup self.old.events card post.now }
        ensures { self.new ≡ with_event self.old (Event.Post card post.now) }
    {
        let slot = self.posted[card as usize];
        let ports = self.ports as usize;
        write_post(&mut self.posts, ports, slot as usize, card as usize, post);
        raise(&mut self.posted, card);
        self.posted_next = with(self.posted_next, card);
        self.order.push_reserved(card as u8);
    }

    // Decides the next slot, which may be decided.
    pub(super) fn add_decision(&mut self) -> RoundsUsed
        requires { MayDecide self.old.setup self.old.events }
        ensures board { self.new ≡ with_event self.old Event.Decide }
        ensures numbers { result ≡ (decision_at self.old.setup (posted self.old.events) (decides self.old.events)).numbers }
    {
        let slot = self.matches.len() as u32;
        let posts = posts_at(&self.posts, slot as usize, self.ports as usize);
        self.matches.push_reserved(Match::new(self.ports));
        put_rows(&mut self.rows, posts);
        let numbers = decide_in(
            self.ports,
            self.rounds,
            slot,
            &self.rows[..posts.len()],
            &mut self.pointers,
            &mut self.matches[slot as usize],
            &mut self.scratch,
        );
        self.matches[slot as usize].put_parts(&mut self.parts);
        self.done = is_last(posts);
        self.posted_next = 0;
        self.numbers.push_reserved(numbers);
        self.order.push_reserved(DECISION);
        numbers
    }

    // Notes a take, which may come, and answers it.
    pub(super) fn add_take(&mut self, card: u32) -> Taken
        requires { MayTake self.old.setup self.old.events card }
        ensures board { self.new ≡ with_event self.old (Event.Take card) }
        ensures taken { result ≡ taken_at self.old.setup (posted self.old.events) card (takes_of card self.old.events) }
    {
        let slot = self.taken[card as usize];
        let taken = self.taken_of(card, slot);
        raise(&mut self.taken, card);
        self.order.push_reserved((MAX_PORTS + card) as u8);
        taken
    }
}
