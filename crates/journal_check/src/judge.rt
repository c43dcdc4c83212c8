ghost use Rattle.std.specs.Prelude.{◌≡◌, ◌≤◌, ◌<◌, ◌+◌, ◌++◌, ◌∷◌, ◌&&◌, not, [], ℕ, List, length, replicate, take, IfOk, IfNone};
ghost use Rattle.slot_match.specs.Rows.{AreWithin, IsWithin, IsOfLevels, empty_row};
ghost use Rattle.slot_histories.specs.Tests.{is_empty, keeps_rest};
ghost use Rattle.std.specs.List.{list_any};
ghost use Rattle.eslip_rounds.specs.Schedulers.{Scheduler};
ghost use Rattle.named_schedulers.specs.Named.{decision_named};
ghost use Rattle.journal_check.specs.Files.{FileSlot, JournalFile};
ghost use Rattle.journal_check.specs.Lawful.{after_slot, post_failure, output_failure, failure_in, first_of, is_alike, lacks_more, breaks, differs};
ghost use Rattle.journal_check.specs.Verdicts.{verdict_under};
ghost use Rattle.journal_check.specs.Steps.{IsSlotRead, before_of, failure_with, IsFor, IsJudged};

use crate::slots::SlotRead;
use crate::verdict::{Failure, Reason, Verdict};
use named_schedulers::NamedScheduler;
use pointer_state::Pointers;
use rotating_pick::{MAX_PORTS, MAX_ROUNDS, OutOfMemory, PORT_COUNT};
use service_bound::{MAX_NOTED, WaitMeter};
use slot_match::{Fed, Match, Row, Served};
use std::alloc::Global;

// What is known of the slots so far, in their order.
#[derive(Drop)]
pub(crate) struct Judge {
    // The scheduler by which the slots are decided.
    pub(crate) scheduler: NamedScheduler,
    pub(crate) rounds: u32,
    // The rows of the slot before, in the first places.
    pub(crate) rows: [Row; PORT_COUNT],
    // Its match.
    pub(crate) matched: Match,
    // Whether some post of it said that more is to come.
    pub(crate) going: bool,
    // The pointers that it left.
    pub(crate) pointers: Pointers,
    // The waits, as long as no slot failed.
    pub(crate) meter: WaitMeter,
    // The first slot that failed.
    pub(crate) failure: Option<Failure>,
}

impl Judge {
    // What is known before the first slot of a file.
    pub(crate) fn make(
        alloc: Global,
        scheduler: NamedScheduler,
        ports: u32,
        rounds: u32,
    ) -> Result<Judge, OutOfMemory>
        requires ports_some { 0 < ports }
        requires ports_few { ports ≤ MAX_PORTS }
        requires rounds_some { 0 < rounds }
        requires rounds_few { rounds ≤ MAX_ROUNDS }
        ensures ready { IfOk result (IsFor ports rounds 0) }
        ensures judged { IfOk result (IsJudged (decision_named scheduler) ports rounds []) }
        ensures scheduler { IfOk result (λ judge. judge.scheduler ≡ scheduler) }
    {
        let rows = no_rows();
        Ok(Judge {
            scheduler,
            rounds,
            rows,
            matched: Match::new(ports),
            going: true,
            pointers: Pointers::new(ports),
            meter: WaitMeter::make(alloc, ports)?,
            failure: None,
        })
    }

    // Why the posts of the next slot fail, if they do.
    #[tactic(auto, unfolding(crate::specs::Lawful::post_failure))]
    fn post_failure(&self, rows: &[Row], more: &[bool]) -> Option<Reason>
        requires cards { length rows.now ≡ length self.now.matched }
        requires mores { length more.now ≡ length rows.now }
        requires few { length rows.now ≤ MAX_PORTS }
        requires before { AreWithin (length rows.now) (take (length rows.now) self.now.rows) }
        ensures { result ≡ post_failure (length rows.now) (before_of (length rows.now) self.now) rows.now more.now }
    {
        if !self.going {
            return Some(Reason::AfterEnd);
        }
        if let Some(card) = first_without_more(rows, more) {
            return Some(Reason::More { card });
        }
        let before = &self.rows[..rows.len()];
        let card = first_to_break(before, &self.matched, rows)?;
        Some(Reason::Keeps { card })
    }

    // Decides slot `t` from these rows, and says why an output fails, if one does.
    #[tactic(auto, unfolding(crate::specs::Lawful::output_failure))]
    fn output_failure(&mut self, t: u32, rows: &[Row], fed: &[Option<Fed>]) -> Option<Reason>
        requires ready { IsFor (length rows.now) self.old.rounds t self.old }
        requires within { AreWithin (length rows.now) rows.now }
        requires outputs { length fed.now ≡ length rows.now }
        ensures failure { result ≡ output_failure (length rows.now) fed.now self.new.matched }
        ensures matched { self.new.matched ≡ (decision_named self.old.scheduler (length rows.now) self.old.rounds t rows.now self.old.pointers).matched }
        ensures places { self.new.pointers ≡ (decision_named self.old.scheduler (length rows.now) self.old.rounds t rows.now self.old.pointers).places }
        ensures stays { self.new ≡ record self.old { matched = self.new.matched; pointers = self.new.pointers } }
        ensures ready { IsFor (length rows.now) self.new.rounds t self.new }
    {
        let ports = self.pointers.ports();
        let _numbers = self.scheduler.decide(
            ports,
            self.rounds,
            t,
            rows,
            &mut self.pointers,
            &mut self.matched,
        );
        let output = first_difference(fed, &self.matched)?;
        Some(Reason::Output { output })
    }

    // Decides slot `t`, and says why an output fails, if one does. Else the next slot is judged by it.
    fn decide_slot(&mut self, t: u32, ports: u32, slot: &SlotRead) -> Option<Reason>
        requires ready { IsFor ports self.old.rounds t self.old }
        requires within { AreWithin ports (take ports slot.now.rows) }
        ensures failure { result ≡ output_failure ports (take ports slot.now.fed)
            (decision_named self.old.scheduler ports self.old.rounds t (take ports slot.now.rows) self.old.pointers).matched }
        ensures next { (value : FileSlot) → IsSlotRead ports slot.now value
            → IfNone result (before_of ports self.new
            ≡ after_slot (decision_named self.old.scheduler) ports self.old.rounds t (before_of ports self.old) value) }
        ensures stays { (self.new.scheduler ≡ self.old.scheduler) × (self.new.rounds ≡ self.old.rounds) × (self.new.meter ≡ self.old.meter)
            × (self.new.failure ≡ self.old.failure) }
        ensures ready { IsFor ports self.new.rounds t self.new }
    {
        let count = ports as usize;
        match self.output_failure(t, &slot.rows[..count], &slot.fed[..count]) {
            Some(reason) => Some(reason),
            None => {
                self.rows = slot.rows;
                self.going = is_going(&slot.more[..count]);
                None
            }
        }
    }

    // Why slot `t` fails, if it does. Else the next slot is judged by it.
    fn slot_failure(&mut self, t: u32, ports: u32, slot: &SlotRead) -> Option<Reason>
        requires ready { IsFor ports self.old.rounds t self.old }
        requires within { AreWithin ports (take ports slot.now.rows) }
        ensures failure { (value : FileSlot) → IsSlotRead ports slot.now value
            → result ≡ failure_in (decision_named self.old.scheduler) ports self.old.rounds t (before_of ports self.old) value }
        ensures next { (value : FileSlot) → IsSlotRead ports slot.now value
            → IfNone result (before_of ports self.new
            ≡ after_slot (decision_named self.old.scheduler) ports self.old.rounds t (before_of ports self.old) value) }
        ensures stays { (self.new.scheduler ≡ self.old.scheduler) × (self.new.rounds ≡ self.old.rounds) × (self.new.meter ≡ self.old.meter)
            × (self.new.failure ≡ self.old.failure) }
        ensures ready { IsFor ports self.new.rounds t self.new }
    {
        let count = ports as usize;
        match self.post_failure(&slot.rows[..count], &slot.more[..count]) {
            Some(reason) => Some(reason),
            None => self.decide_slot(t, ports, slot),
        }
    }

    // Judges slot `t` of a file, which stands at the first places.
    pub(crate) fn judge(&mut self, t: u32, ports: u32, slot: &SlotRead)
        requires ready { IsFor ports self.old.rounds t self.old }
        requires few { t < MAX_NOTED }
        requires within { AreWithin ports (take ports slot.now.rows) }
        ensures judged { (slots : List FileSlot) (value : FileSlot) → t ≡ length slots → IsSlotRead ports slot.now value
            → IsJudged (decision_named self.old.scheduler) ports self.old.rounds slots self.old
            → IsJudged (decision_named self.old.scheduler) ports self.old.rounds (slots ++ value ∷ []) self.new }
        ensures scheduler { self.new.scheduler ≡ self.old.scheduler }
        ensures ready { IsFor ports self.old.rounds (t + 1) self.new }
    {
        if self.failure.is_some() {
            return;
        }
        match self.slot_failure(t, ports, slot) {
            Some(reason) => self.failure = Some(Failure { slot: t, reason }),
            None => self.meter.note(&slot.rows[..ports as usize], &self.matched),
        }
    }

    // The first failure of a file of so many slots, all of which are judged.
    fn failure(&self, slots: u32) -> Option<Failure>
        requires { 0 < slots }
        ensures { (scheduler : Scheduler) (n rounds : ℕ) → result ≡ failure_with scheduler n rounds slots self.now self.now.failure [] }
    {
        if self.failure.is_none() && self.going {
            Some(Failure {
                slot: slots - 1,
                reason: Reason::NoEnd,
            })
        } else {
            self.failure
        }
    }

    // The verdict on a file of so many slots, all of which are judged.
    pub(crate) fn verdict(&self, slots: u32) -> Verdict
        requires { 0 < slots }
        ensures { (scheduler : Scheduler) (file : JournalFile) → slots ≡ length file.slots → self.now.meter.ports ≡ file.ports
            → IsJudged scheduler file.ports file.rounds file.slots self.now → result ≡ verdict_under scheduler file }
    {
        match self.failure(slots) {
            Some(Failure { slot, reason }) => Verdict::No { slot, reason },
            None => Verdict::Yes {
                slots,
                longest: [
                    self.meter.longest(0),
                    self.meter.longest(1),
                    self.meter.longest(2),
                    self.meter.longest(3),
                ],
            },
        }
    }
}

// The least card whose row names an output, and whose post does not say that more is to come.
fn first_without_more(rows: &[Row], more: &[bool]) -> Option<u32>
    requires mores { length more.now ≡ length rows.now }
    requires few { length rows.now ≤ MAX_PORTS }
    ensures { result ≡ first_of (length rows.now) (lacks_more rows.now more.now) }
{
    for i in 0..rows.len() {
        if lacks_more(&rows[i], more[i]) {
            return Some(i as u32);
        }
    }
    None
}

// Whether the row names an output, and no more is to come.
fn lacks_more(row: &Row, more: bool) -> bool
    ensures { result ≡ (not more && not (is_empty row.now)) }
{
    !more && !row.is_empty()
}

// The least card whose row does not keep its row of the slot before, of which the match served its part.
fn first_to_break(before: &[Row], matched: &Match, rows: &[Row]) -> Option<u32>
    requires cards { length rows.now ≡ length matched.now }
    requires few { length rows.now ≤ MAX_PORTS }
    requires before { AreWithin (length rows.now) before.now }
    ensures { result ≡ first_of (length rows.now) (breaks (length rows.now) matched.now before.now rows.now) }
{
    for i in 0..rows.len() {
        if breaks(&before[i], matched.served(i as u32), &rows[i], rows.len()) {
            return Some(i as u32);
        }
    }
    None
}

// Whether the row does not keep the one before, which names none but the `count` ports, and of which this part
// was served.
fn breaks(before: &Row, served: Option<Served>, row: &Row, count: usize) -> bool
    requires within { IsWithin count before.now }
    requires levels { IsOfLevels before.now }
    ensures { result ≡ not (keeps_rest count served before.now row.now) }
{
    // Only the contract speaks of the number of ports.
    let _ = count;
    !row.keeps(before, served)
}

// The least output that is not fed as it is matched.
fn first_difference(fed: &[Option<Fed>], matched: &Match) -> Option<u32>
    requires { length fed.now ≡ length matched.now }
    ensures { result ≡ first_of (length matched.now) (differs fed.now matched.now) }
{
    for j in 0..matched.ports() {
        if differs(fed[j as usize], matched.fed(j)) {
            return Some(j);
        }
    }
    None
}

// Whether two outputs are not fed alike.
fn differs(fed: Option<Fed>, decided: Option<Fed>) -> bool
    ensures { result ≡ not (is_alike fed decided) }
{
    fed != decided
}

// Whether some card says that more is to come.
fn is_going(more: &[bool]) -> bool
    ensures { result ≡ list_any (λ more. more) more.now }
{
    more.iter().any(|more| *more)
}

// Rows that name no output.
fn no_rows() -> [Row; PORT_COUNT]
    ensures { result ≡ replicate MAX_PORTS empty_row }
{
    [Row::empty(); PORT_COUNT]
}
