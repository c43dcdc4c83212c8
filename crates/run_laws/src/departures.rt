//! Laws of departures, as the contracts of functions that do nothing.

ghost use Rattle.std.specs.Prelude.{ℕ};
ghost use Rattle.eslip_rounds.specs.Schedulers.{Scheduler, IsScheduler};
ghost use Rattle.switch_plan.specs.GoodPlans.{SwitchPlan, IsGood};
ghost use Rattle.run_laws.specs.Ends.{IsLengthUnder};
ghost use Rattle.run_laws.specs.DeparturePromises.{EachDeparts, DeparturesRise, DeparturesDiffer, RecordsAreInOrder, HasDeparturesUnder, CountsDepartures};

/// Each packet that is admitted has one departure at each of its outputs: a slot of the run, its arrival slot and its cells
/// later or more.
pub fn packets_depart()
    ensures { (scheduler : Scheduler) (plan : SwitchPlan) (slots : ℕ) → IsScheduler scheduler → IsGood plan → IsLengthUnder scheduler plan slots
        → EachDeparts scheduler plan slots }
{}

/// The departures of one flow at an output are in the order of arrival.
pub fn departures_rise()
    ensures { (scheduler : Scheduler) (plan : SwitchPlan) (slots : ℕ) → IsScheduler scheduler → IsGood plan → IsLengthUnder scheduler plan slots
        → DeparturesRise scheduler plan slots }
{}

/// At an output no two packets have one departure.
pub fn departures_differ()
    ensures { (scheduler : Scheduler) (plan : SwitchPlan) (slots : ℕ) → IsScheduler scheduler → IsGood plan → IsLengthUnder scheduler plan slots
        → DeparturesDiffer scheduler plan slots }
{}

/// The messages of an output's capture are in the order of the departures of their packets.
pub fn records_are_in_order()
    ensures { (scheduler : Scheduler) (plan : SwitchPlan) (slots : ℕ) → IsScheduler scheduler → IsGood plan → IsLengthUnder scheduler plan slots
        → RecordsAreInOrder scheduler plan slots }
{}

/// All of these.
pub fn runs_have_departures()
    ensures { (scheduler : Scheduler) (plan : SwitchPlan) (slots : ℕ) → IsScheduler scheduler → IsGood plan → IsLengthUnder scheduler plan slots
        → HasDeparturesUnder scheduler plan slots }
{}

/// As many packets leave by an output as its capture has messages, and by all outputs as many as the summary has copies.
pub fn departures_are_counted()
    ensures { (scheduler : Scheduler) (plan : SwitchPlan) (slots : ℕ) → IsScheduler scheduler → IsGood plan → IsLengthUnder scheduler plan slots
        → CountsDepartures scheduler plan slots }
{}
