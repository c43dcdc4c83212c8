ghost use Rattle.std.specs.Prelude.{◌≡◌, ◌+◌, ◌<◌, ◌≤◌, List, [], ◌∷◌, ◌++◌, false, true, if◌then◌else◌, option_map, IfOk, IfSome};
ghost use Rattle.rotating_pick.specs.declared.limits.TheConstants.{MAX_PORTS, MAX_ROUNDS};
ghost use Rattle.slot_match.specs.Rows.{AreWithin};
ghost use Rattle.slot_match.specs.Matches.{unmatched};
ghost use Rattle.pointer_state.specs.Places.{places_at_first};
ghost use Rattle.service_bound.specs.Waits.{NotedSlot, longest_wait};
ghost use Rattle.service_bound.specs.MeterSteps.{HasNoted};
ghost use Rattle.service_bound.specs.declared.limits.TheConstants.{MAX_NOTED};
ghost use Rattle.arrival_queues.specs.Queues.{queue_of};
ghost use Rattle.simulated_slots.specs.Jobs.{is_ideal, queueing_of};
ghost use Rattle.made_traffic.specs.Streams.{stream_at_first};
ghost use Rattle.random_picks.specs.declared.picks.TheConstants.{PICKS_STREAM};
ghost use Rattle.simulated_slots.specs.Slots.{decision_by, picks_by, served_queue};

use crate::discipline::Discipline;
use crate::slot_scheduler::SlotScheduler;
use islip_rounds::RoundsUsed;
use named_schedulers::laws::each_is_a_scheduler;
use pointer_state::Pointers;
use random_picks::RandomPicks;
use rotating_pick::OutOfMemory;
use service_bound::WaitMeter;
use slot_match::Match;
use std::alloc::Global;
use std::marker::Model;
use unicast_slots::UnicastRows;

/// What decides the slots of a switch: a scheduler with its pointers, or random picks; and a meter of waits. An ideal switch
/// uses none of them.
#[derive(Drop)]
pub struct Arbiter {
    discipline: Discipline,
    rounds: u32,
    scheduler: SlotScheduler,
    pointers: Pointers,
    picks: RandomPicks,
    matched: Match,
    meter: WaitMeter,
}

impl Model for Arbiter {
    ghost use Rattle.simulated_slots.specs.ArbiterSteps.{ArbiterValue, IsArbiter};

    ghost Value = { ArbiterValue };

    ghost view = { λ a. record {
      discipline = a.discipline;
      rounds = a.rounds;
      places = a.pointers;
      picks = a.picks;
      matched = a.matched;
      meter = a.meter;
    } };

    ghost invariant = { λ a. IsArbiter a.scheduler (record {
      discipline = a.discipline;
      rounds = a.rounds;
      places = a.pointers;
      picks = a.picks;
      matched = a.matched;
      meter = a.meter;
    }) };
}

impl Arbiter {
    /// That of a switch of `n` ports, before slot 0, with the random words of the seed. It takes all memory that it needs.
    pub fn make(
        alloc: Global,
        discipline: Discipline,
        rounds: u32,
        n: u32,
        seed: u32,
    ) -> Result<Arbiter, OutOfMemory>
        requires some { 0 < n }
        requires size { n ≤ MAX_PORTS }
        requires rounds_some { 0 < rounds }
        requires rounds_few { rounds ≤ MAX_ROUNDS }
        ensures discipline { IfOk result (λ arbiter. arbiter.discipline ≡ discipline) }
        ensures rounds { IfOk result (λ arbiter. arbiter.rounds ≡ rounds) }
        ensures places { IfOk result (λ arbiter. arbiter.places ≡ places_at_first n) }
        ensures picks { IfOk result (λ arbiter. arbiter.picks ≡ stream_at_first seed PICKS_STREAM) }
        ensures noted { IfOk result (λ arbiter. HasNoted arbiter.meter []) }
        ensures count { IfOk result (λ arbiter. arbiter.meter.count ≡ 0) }
    {
        Ok(Arbiter {
            discipline,
            rounds,
            scheduler: SlotScheduler::new(discipline.scheduler()),
            pointers: Pointers::new(n),
            picks: RandomPicks::new(seed),
            matched: Match::new(n),
            meter: WaitMeter::make(alloc, n)?,
        })
    }

    /// Decides slot number `slot` by these rows. It takes no memory.
    pub fn decide(&mut self, slot: u32, rows: &UnicastRows) -> RoundsUsed
        requires rows { AreWithin self.old.places.ports rows.now }
        requires few { self.old.meter.count < MAX_NOTED }
        ensures kept { (self.new.discipline ≡ self.old.discipline) × (self.new.rounds ≡ self.old.rounds) × (self.new.places.ports ≡ self.old.places.ports) }
        ensures decision { record { matched = self.new.matched; numbers = result; places = self.new.places }
            ≡ decision_by self.old.discipline self.old.places.ports self.old.rounds slot rows.now self.old.places self.old.picks }
        ensures picks { self.new.picks ≡ picks_by self.old.discipline self.old.places.ports self.old.rounds rows.now self.old.picks }
        ensures count { self.new.meter.count ≤ self.old.meter.count + 1 }
        ensures noted { is_ideal self.old.discipline ≡ false → (slots : List NotedSlot) → HasNoted self.old.meter slots
            → HasNoted self.new.meter (slots ++ record { rows = rows.now; matched = self.new.matched } ∷ []) }
    {
        if self.discipline.is_ideal() {
            return RoundsUsed::none();
        }
        let n = self.pointers.ports();
        if self.discipline.is_random() {
            let used = self
                .picks
                .decide(n, self.rounds, rows.rows(), &mut self.matched);
            self.meter.note(rows.rows(), &self.matched);
            return used;
        }
        // Tells the proof that the pointers stay those of as many ports.
        each_is_a_scheduler();
        let rounds = self.discipline.rounds(self.rounds);
        let used = self.scheduler.decide(
            n,
            rounds,
            slot,
            rows,
            &mut self.pointers,
            &mut self.matched,
        );
        self.meter.note(rows.rows(), &self.matched);
        used
    }

    /// From which input the output is served, if it is; an ideal output is served whatever the input, and has input 0.
    pub fn served(&self, output: u32) -> Option<u32>
        requires { output < self.now.places.ports }
        ensures queue { option_map (λ input. queue_of (queueing_of self.now.discipline) self.now.places.ports input output) result
            ≡ served_queue self.now.discipline self.now.places.ports self.now.matched output }
        ensures within { IfSome result (λ input. input < self.now.places.ports) }
    {
        if self.discipline.is_ideal() {
            return Some(0);
        }
        Some(self.matched.fed(output)?.input)
    }

    /// The longest wait of an output that an input asks for, 0 of an ideal switch.
    pub fn longest(&self) -> u32
        ensures { (slots : List NotedSlot) → HasNoted self.now.meter slots
            → result ≡ (if is_ideal self.now.discipline then 0 else longest_wait self.now.places.ports 0 slots) }
    {
        if self.discipline.is_ideal() {
            return 0;
        }
        self.meter.longest(0)
    }
}
