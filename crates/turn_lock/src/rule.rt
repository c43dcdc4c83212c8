use crate::kept::Kept;
use crate::view::View;
use atomic_table::{Join, Play, Seat, Shared, Split, Table, TableRule};
use std::alloc::Global;
use std::marker::PhantomData;
use std::snapshot::Snapshot;

/// The word that says whether some seat is in a turn.
pub const TURN_WORD: usize = 0;

/// The word that counts the turns.
pub const COUNT_WORD: usize = 1;

/// The turn word where no seat is in a turn.
pub const FREE: u64 = 0;

/// The turn word where some seat is.
pub const HELD: u64 = 1;

/// The slot that holds the value.
pub const SLOT: usize = 0;

/// The value with the number of turns that it has had.
#[derive(Drop)]
pub struct Stamped<K> {
    pub value: K,
    pub turns: u64,
}

/// What the rule may read of how the turn lock was made. It keeps no copy of the value.
#[derive(Drop)]
pub struct First<K> {
    pub value: Snapshot<K>,
    pub seats: u32,
}

pub type TurnTable<K> = Table<
    Option<Stamped<K>>,
    View<<K as Kept>::Entry>,
    First<K>,
    InTurns<K>,
    Global,
>;

pub type TurnWords<K> = Shared<Option<Stamped<K>>, View<<K as Kept>::Entry>, First<K>, InTurns<K>>;

pub type RawSeat<K> = Seat<Option<Stamped<K>>, View<<K as Kept>::Entry>>;

/// The rule of the table.
pub struct InTurns<K> {
    of: PhantomData<K>,
}

impl<K: Kept> TableRule<Option<Stamped<K>>, View<K::Entry>, First<K>> for InTurns<K> {
    ghost use Rattle.turn_lock.specs.Openings.{opening};
    ghost use Rattle.turn_lock.specs.Views.{newcomer};
    ghost use Rattle.turn_lock.specs.Rule.{Keeps};

    ghost holds = { λ about s. Keeps K.entries K.numbers K.may_add (opening K.entries K.numbers about.value.value about.seats) s };

    ghost first = { λ about. newcomer (opening K.entries K.numbers about.value.value about.seats) };
}

/// A try to take the turn word: the steps take and held.
pub struct Tries<K> {
    of: PhantomData<K>,
}

impl<K: Kept> Play<Option<Stamped<K>>, View<K::Entry>> for Tries<K> {
    ghost use Rattle.turn_lock.specs.Rule.{Tried};

    ghost then = { λ step me found after. Tried K.entries K.numbers K.may_add me found after };
}

/// The count of turns goes up: the step raise.
pub struct Raises<K> {
    of: PhantomData<K>,
}

impl<K: Kept> Play<Option<Stamped<K>>, View<K::Entry>> for Raises<K> {
    ghost use Rattle.turn_lock.specs.Rule.{IsRaised};

    ghost then = { λ step me found after. IsRaised K.entries K.numbers K.may_add me after };
}

/// The turn word is given back: the step free.
pub struct Frees<K> {
    of: PhantomData<K>,
}

impl<K: Kept> Play<Option<Stamped<K>>, View<K::Entry>> for Frees<K> {
    ghost use Rattle.turn_lock.specs.Rule.{IsFreed};

    ghost then = { λ step me found after. IsFreed K.entries K.numbers K.may_add me after };
}

/// A new seat has the next number: the step split.
pub struct Deals;

impl<E> Split<View<E>> for Deals {
    ghost use Rattle.turn_lock.specs.Views.{dealer_after, dealt};

    ghost left = { dealer_after };

    ghost right = { dealt };
}

/// One seat takes in what another had seen: the step join.
pub struct Joins;

impl<E> Join<View<E>> for Joins {
    ghost use Rattle.turn_lock.specs.Views.{joined_with, spent_view};

    ghost both = { joined_with };

    ghost spent = { spent_view };
}
