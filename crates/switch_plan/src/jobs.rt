//! The plan of a job.

ghost use Rattle.std.specs.Prelude.{◌≡◌, ◌≢◌, ◌⊎◌, ◌^◌, ◌<◌, ◌≤◌, false, List, length, map, All, vec_len, None, Some, Ok, Err, IfOk, IfErr, IsErrAnd};
ghost use Rattle.forward_table.specs.declared.faults.TableFault.{TableFault};
ghost use Rattle.forward_table.specs.declared.route_lines.RouteLine.{RouteLine};
ghost use Rattle.forward_table.specs.Reading.{reading_of};
ghost use Rattle.forward_table.specs.Routes.{AreRoutesOf};
ghost use Rattle.switch_words.specs.Limits.{AreWithinLimits};
ghost use Rattle.switch_plan.specs.declared.fault.PlanFault.{PlanFault};
ghost use Rattle.switch_plan.specs.Traffic.{CaptureFile, file_of};
ghost use Rattle.switch_plan.specs.Refusals.{AreRead, IsRefusal, refusal_of, terms_of, limits_for};
ghost use Rattle.switch_plan.specs.ReadingSteps.{bytes_of_files, IsCaptureOf};
ghost use Rattle.switch_plan.specs.PortSteps.{AreBroughtBy};
ghost use Rattle.switch_plan.specs.JobSteps.{packets_of_ports, AreFit, IsPlanWith, IsJobPlan};
ghost use Rattle.switch_plan.specs.GoodPlans.{switch_plan_of, IsGood, IsBurst, IsWithin, IsPlanOf};

use crate::capture_files::read_captures;
use crate::fault::PlanFault;
use crate::limits::Limits;
use crate::links::common_link;
use crate::output_rooms::{brought_by_ports, cards_of};
use crate::plan::Plan;
use crate::port_limits::are_within;
use crate::port_plans::{PortPlan, port_plans};
use crate::port_rooms::Brought;
use crate::totals::{greatest_slots, total_aside, total_oversize, total_work};
use crate::traffic::{is_nano, pace_of};
use forward_table::{Table, TableFault, read_table};
use pcap_records::{Capture, Link};
use rotating_pick::{MAX_FILE_BYTES, MAX_PORTS, OutOfMemory};
use std::alloc::Global;
use std::thread::Threads;
use switch_words::Settings;

/// What a job of this table and these captures is to do: a table of at most 16,777,216 bytes, and a capture for
/// each port, 1 to 64 of them, each of at most 4,294,967,295 bytes. A plan is good, within the limits of a long
/// job or of a burst as the settings say, and that of the table and the captures; a fault is the first cause to
/// refuse them, and a job that is to be refused is refused.
///
/// Each capture is read and planned by itself, in threads where there are some and a capture is not small. The cards
/// keep the bytes of the captures, of which none are copied.
pub fn plan<R: Threads + Sync>(
    rt: &R,
    alloc: Global,
    settings: &Settings,
    table: Vec<u8>,
    captures: Vec<Vec<u8>>,
) -> Result<Plan, PlanFault>
    requires settings { AreWithinLimits settings.now }
    requires some { 0 < vec_len captures }
    requires few { vec_len captures ≤ MAX_PORTS }
    requires table { vec_len table ≤ MAX_FILE_BYTES }
    requires files { All (λ file. vec_len file < 2 ^ 32) captures.items }
    ensures good { IfOk result (λ plan. IsGood (switch_plan_of plan)) }
    ensures within { IfOk result (λ plan. IsWithin (limits_for settings.now.long (vec_len captures)) (switch_plan_of plan)) }
    ensures burst { settings.now.long ≡ false → IfOk result (λ plan. IsBurst (switch_plan_of plan)) }
    ensures planned { IfOk result (λ plan. (lines : List RouteLine) × (read : List CaptureFile) × AreRead table.items (bytes_of_files captures) lines read
        × (refusal_of (terms_of settings.now) lines read ≡ None) × IsPlanOf settings.now (bytes_of_files captures) lines read (switch_plan_of plan)) }
    ensures refused { IfErr result (λ fault. (fault ≡ PlanFault.OutOfMemory) ⊎ IsRefusal (terms_of settings.now) table.items (bytes_of_files captures) fault) }
    ensures every_refusal { (fault : PlanFault) → IsRefusal (terms_of settings.now) table.items (bytes_of_files captures) fault
        → IsErrAnd result (λ answer. (answer ≡ PlanFault.OutOfMemory) ⊎ (answer ≡ fault)) }
{
    let table = table_of(alloc, &table, captures.len() as u32)?;
    let captures = read_captures(rt, alloc, captures)?;
    plan_of(rt, alloc, settings, &table, captures)
}

// The table of a text, for a switch of `ports` ports.
fn table_of(alloc: Global, text: &[u8], ports: u32) -> Result<Table, PlanFault>
    requires some { 0 < ports }
    requires few { ports ≤ MAX_PORTS }
    requires length { length text.now ≤ MAX_FILE_BYTES }
    ensures table { IfOk result (λ table. reading_of ports text.now ≡ Ok table) }
    ensures routes { IfOk result (AreRoutesOf ports) }
    ensures refused { IfErr result
        (λ answer. (answer ≡ PlanFault.OutOfMemory) ⊎ ((fault : TableFault) × (answer ≡ PlanFault.Table fault) × (reading_of ports text.now ≡ Err fault))) }
{
    match read_table(alloc, text, ports) {
        Ok(table) => Ok(table),
        Err(fault) => Err(refusal(fault)),
    }
}

// The refusal of a fault of the table's text.
fn refusal(fault: TableFault) -> PlanFault
    ensures memory { fault ≡ TableFault.OutOfMemory → result ≡ PlanFault.OutOfMemory }
    ensures other { fault ≢ TableFault.OutOfMemory → result ≡ PlanFault.Table fault }
{
    match fault {
        TableFault::OutOfMemory => PlanFault::OutOfMemory,
        fault => PlanFault::Table(fault),
    }
}

// The plan of a table and captures that were read.
fn plan_of<R: Threads + Sync>(
    rt: &R,
    alloc: Global,
    settings: &Settings,
    table: &Table,
    captures: Vec<Capture>,
) -> Result<Plan, PlanFault>
    requires settings { AreWithinLimits settings.now }
    requires some { 0 < vec_len captures }
    requires few { vec_len captures ≤ MAX_PORTS }
    requires routes { AreRoutesOf (vec_len captures) table.now }
    requires read { All (λ capture. IsCaptureOf capture.bytes.items capture) captures.items }
    ensures plan { IfOk result (IsJobPlan settings.now table.now captures.items) }
    ensures refused { IfErr result
        (λ fault. (fault ≡ PlanFault.OutOfMemory) ⊎ (refusal_of (terms_of settings.now) table.now (map file_of captures.items) ≡ Some fault)) }
{
    let link = common_link(&captures)?;
    let nano = is_nano(&captures);
    let pace = pace_of(settings.speed, &captures);
    let limits = Limits::of(settings.long, captures.len());
    let ports = port_plans(rt, alloc, table, pace, captures)?;
    let brought = brought_by_ports(alloc, &ports)?;
    are_within(&limits, &ports, &brought)?;
    Ok(plan_with(alloc, settings, nano, link, ports, &brought)?)
}

// The plan of these ports, which bring so much. The only error is out of memory.
#[tactic(auto, using(crate::proofs::PortSums::aside_is, crate::proofs::PortSums::oversize_is, crate::proofs::PortSums::ports_summable))]
fn plan_with(
    alloc: Global,
    settings: &Settings,
    nano: bool,
    link: Link,
    ports: Vec<PortPlan>,
    brought: &[Brought],
) -> Result<Plan, OutOfMemory>
    requires ports { AreFit ports.items }
    requires brought { AreBroughtBy (packets_of_ports ports.items) brought.now }
    ensures { IfOk result (IsPlanWith settings.now nano link ports.items) }
{
    let cells = total_work(brought);
    let oversize = total_oversize(brought);
    let aside = total_aside(brought);
    let cards = cards_of(alloc, settings.depth, ports, brought)?;
    Ok(Plan {
        nano,
        link,
        rounds: settings.rounds,
        depth: settings.depth,
        workers: settings.workers,
        max_slots: (greatest_slots(&cards) + cells + 1) as u32,
        oversize: oversize as u32,
        unrouted: (aside - oversize) as u32,
        cards,
    })
}
