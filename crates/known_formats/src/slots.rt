//! A board whose slots are matched as a vector file says, since only a board makes a journal.
use crate::fields::asks;
use board_state::{BoardState, Journal};
use cell_cutter::{Cell, PAYLOAD_BYTES};
use crossbar::Post;
use rotating_pick::{MAX_PORTS, MAX_ROUNDS};
use slot_histories::{Answer, Event};
use slot_match::{Row, Served};
use std::alloc::Global;
use test_vectors::NoAnswer;

// The most slots of a block.
const MAX_SLOTS: u32 = 8;

/// A board, and for each card the cell that it posts next.
#[derive(Drop)]
pub struct Slots {
    board: BoardState,
    cells: [Option<Cell>; MAX_PORTS as usize],
}

impl Slots {
    /// A board of which no slot is decided.
    pub fn new(alloc: Global, ports: u32, rounds: u32) -> Result<Slots, NoAnswer> {
        if ports == 0 || ports > MAX_PORTS || rounds == 0 || rounds > MAX_ROUNDS {
            return Err(NoAnswer);
        }
        match BoardState::make(alloc, ports, rounds, MAX_SLOTS) {
            Ok(board) => Ok(Slots {
                board,
                cells: [None; MAX_PORTS as usize],
            }),
            Err(_) => Err(NoAnswer),
        }
    }

    /// Decides a slot in which each input asks for its part of the match and for nothing else.
    pub fn decide(&mut self, alloc: Global, matched: &str) -> Result<(), NoAnswer> {
        let rows = asks(alloc, self.board.ports(), matched)?;
        self.post_all(rows.as_slice())?;
        self.answer(Event::Decide)?;
        self.take_all()
    }

    /// The journal of the slots.
    pub fn journal(self) -> Journal {
        let Slots { board, cells: _ } = self;
        board.journal()
    }

    fn post_all(&mut self, rows: &[Row]) -> Result<(), NoAnswer> {
        for (card, row) in rows.iter().enumerate() {
            self.post(card, *row)?;
        }
        Ok(())
    }

    fn take_all(&mut self) -> Result<(), NoAnswer> {
        for card in 0..self.board.ports() {
            self.take(card)?;
        }
        Ok(())
    }

    fn post(&mut self, card: usize, row: Row) -> Result<(), NoAnswer> {
        if card >= MAX_PORTS as usize {
            return Err(NoAnswer);
        }
        let post = Post {
            row,
            cell: self.cells[card],
            more: true,
        };
        let card = card as u32;
        self.answer(Event::Post { card, post })?;
        Ok(())
    }

    fn take(&mut self, card: u32) -> Result<(), NoAnswer> {
        if card >= MAX_PORTS {
            return Err(NoAnswer);
        }
        let Answer::Took(taken) = self.answer(Event::Take { card })? else {
            return Err(NoAnswer);
        };
        self.cells[card as usize] = match taken.served {
            Some(served) => Some(cell_of(card as u8, served)),
            None => None,
        };
        Ok(())
    }

    // What the event answers, if it may come.
    fn answer(&mut self, event: Event) -> Result<Answer, NoAnswer> {
        if !self.board.may(&event) {
            return Err(NoAnswer);
        }
        Ok(self.board.step(event))
    }
}

// A cell of the input, as it was served.
fn cell_of(input: u8, served: Served) -> Cell {
    Cell {
        input,
        level: served.level,
        kind: served.kind,
        last: true,
        used: PAYLOAD_BYTES as u8,
        number: 0,
        payload: [0; PAYLOAD_BYTES],
    }
}
