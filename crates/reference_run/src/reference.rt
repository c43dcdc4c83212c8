ghost use Rattle.std.specs.Prelude.{◌≡◌, ℕ, ◌<◌, ◌≤◌, List, [], map, filter, length, IfOk};
ghost use Rattle.cell_cutter.specs.declared.sizes.TheConstants.{MAX_CAPTURED_BYTES};
ghost use Rattle.card_core.specs.declared.plan.Planned.{Planned as APlanned};
ghost use Rattle.card_core.specs.Plans.{IsGoodPlan, plan_of};
ghost use Rattle.card_core.specs.Queues.{is_routed};
ghost use Rattle.switch_plan.specs.GoodPlans.{IsGood, IsCountable, switch_plan_of};
ghost use Rattle.reference_run.specs.Meeting.{coming_of, coming_in};
ghost use Rattle.reference_run.specs.MeetingSteps.{IsReferenceOf};

use card_core::{CardPlan, Planned};
use cell_cutter::cells_of;
use output_queued::{Coming, Reference};
use rotating_pick::{OutOfMemory, is_empty};
use std::alloc::{AllocError, Global};
use switch_plan::Plan;

/// The reference of a good plan that is countable, before slot 0: its ports, its depth, and of each card the packets
/// that go anywhere. The only error is out of memory.
pub fn reference_of(alloc: Global, plan: &Plan) -> Result<Reference, OutOfMemory>
    requires good { IsGood (switch_plan_of plan.now) }
    requires countable { IsCountable (switch_plan_of plan.now) }
    ensures { IfOk result (λ reference. IsReferenceOf (switch_plan_of plan.now) reference []) }
{
    let mut coming = Vec::with_capacity(alloc, plan.cards.len())?;
    for card in &plan.cards {
        coming.push(coming_in(alloc, card)?)?;
    }
    let n = plan.cards.len() as u32;
    Reference::make(alloc, n, plan.depth, coming)
}

// The packets of the card that go anywhere.
fn coming_in(alloc: Global, card: &CardPlan) -> Result<Vec<Coming>, AllocError>
    requires { IsGoodPlan (plan_of card.now) }
    ensures { IfOk result (λ coming. coming.items ≡ coming_in (plan_of card.now)) }
{
    let mut coming = Vec::new(alloc);
    for packet in &card.packets {
        if !is_empty(packet.fan) {
            coming.push(coming_of(*packet))?;
        }
    }
    Ok(coming)
}

// The packet by its cells.
fn coming_of(packet: Planned) -> Coming
    requires { packet.len ≤ MAX_CAPTURED_BYTES }
    ensures { result ≡ coming_of packet }
{
    Coming {
        slot: packet.arrival,
        cells: cells_of(packet.len),
        fan: packet.fan,
        level: packet.level,
    }
}
