ghost use Rattle.std.specs.Prelude.{◌≡◌, ◌≢◌, ◌+◌, ◌<◌, ◌≤◌, ◌||◌, not, nat_lt, ℕ, true, List, Option, map, length, take, drop};
ghost use Rattle.std.specs.List.{range_with_len};
ghost use Rattle.cell_cutter.specs.declared.cell.Cell.{Cell as ACell};
ghost use Rattle.cell_cutter.specs.Messages.{message, cells_of_packet};
ghost use Rattle.cell_cutter.specs.Cells.{cell_of};
ghost use Rattle.slot_match.specs.declared.matching.Served.{Served as APart};
ghost use Rattle.slot_histories.specs.Tests.{is_empty};
ghost use Rattle.eslip_rounds.specs.Schedulers.{Scheduler, IsScheduler};
ghost use Rattle.card_core.specs.Plans.{IsGoodPlan, kind_of, queue_of};
ghost use Rattle.card_core.specs.Posts.{granted_at, post_at};
ghost use Rattle.switch_plan.specs.GoodPlans.{SwitchPlan, IsGood};
ghost use Rattle.run_laws.specs.Runs.{ports_of, posts_under};
ghost use Rattle.descriptor_runs.specs.InputSteps.{HasServed, row_in};
ghost use Rattle.descriptor_runs.specs.SwitchSteps.{AreInputs, IsNameOf, AreNames};

use crate::cell_names::CellNames;
use crate::inputs::Input;
use card_core::Planned;
use cell_cutter::{Cell, CellName, MAX_FORWARDED_BYTES, Packet, cut};
use crossbar::Post;
use rotating_pick::{Kind, LEVELS, MAX_PORTS, only};
use slot_match::Row;

/// Puts what each port posts in the slot that is decided into the list of as many posts: its row, the cell that it was granted in
/// the slot before, cut from the bytes of its packet, and whether it has more to come.
pub(crate) fn put_posts(posts: &mut [Post], inputs: &[Input], rows: &[Row], names: &CellNames)
    requires { (scheduler : Scheduler) × (plan : SwitchPlan) × (slot : ℕ) × IsScheduler scheduler × IsGood plan
        × AreInputs scheduler plan slot true inputs.now × (rows.now ≡ map row_in inputs.now) × AreNames scheduler plan slot names.now
        × (length posts.old ≡ ports_of plan) }
    ensures { (scheduler : Scheduler) (plan : SwitchPlan) (slot : ℕ) → IsScheduler scheduler → IsGood plan
        → AreInputs scheduler plan slot true inputs.now → rows.now ≡ map row_in inputs.now → AreNames scheduler plan slot names.now
        → length posts.old ≡ ports_of plan → posts.new ≡ map (λ i. posts_under scheduler plan i slot) (range_with_len 0 (ports_of plan)) }
{
    for place in 0..posts.len() {
        posts[place] = post_of(&inputs[place], &rows[place], names.get(place as u32));
    }
}

// What the port of the input posts, with this row of its queues and the name of the cell that was granted to it.
fn post_of(input: &Input, row: &Row, name: Option<CellName>) -> Post
    requires { (served : List (Option APart)) × HasServed input.now served true
        × IsNameOf input.now.plan (granted_at input.now.plan served (length served)) name }
    ensures { (served : List (Option APart)) → HasServed input.now served true → row.now ≡ row_in input.now
        → IsNameOf input.now.plan (granted_at input.now.plan served (length served)) name → result ≡ post_at input.now.plan served (length served) }
{
    Post {
        row: *row,
        cell: cell_of(input, name),
        more: has_more(input, row),
    }
}

// Whether the input, whose queues have this row, has more to come.
fn has_more(input: &Input, row: &Row) -> bool
    ensures { result ≡ (nat_lt input.now.next (length input.now.plan.packets) || not (is_empty row.now)) }
{
    input.has_next() || !row.is_empty()
}

// The cell of the name, cut from the bytes of its packet.
fn cell_of(input: &Input, name: Option<CellName>) -> Option<Cell>
    requires { (cell : Option ACell) × IsGoodPlan input.now.plan × IsNameOf input.now.plan cell name }
    ensures { (cell : Option ACell) → IsGoodPlan input.now.plan → IsNameOf input.now.plan cell name → result ≡ cell }
{
    let name = name?;
    let packet = input.packet(name.packet);
    Some(cell_for(input, packet, kind_of(packet), name.number))
}

// The kind of a packet that goes anywhere.
fn kind_of(packet: &Planned) -> Kind
    requires { packet.now.fan ≢ 0 }
    ensures { result ≡ kind_of (queue_of packet.now) }
{
    match only(packet.fan) {
        Some(_) => Kind::Uni,
        None => Kind::Multi,
    }
}

// The cell of this number of a packet of the input, which is of this kind.
fn cell_for(input: &Input, packet: &Planned, kind: Kind, number: u16) -> Cell
    requires card { input.now.plan.card < MAX_PORTS }
    requires place { packet.now.start + packet.now.len ≤ length input.now.plan.bytes }
    requires len { packet.now.len ≤ MAX_FORWARDED_BYTES }
    requires level { packet.now.level < LEVELS }
    requires number { number < cells_of_packet packet.now.len }
    ensures { let p = packet.now in
        result ≡ cell_of input.now.plan.card p.level kind (message p.seconds p.nanos p.original (take p.len (drop p.start input.now.plan.bytes))) number }
{
    let start = packet.start as usize;
    let len = packet.len as usize;
    cut(
        &Packet {
            input: input.card() as u8,
            level: packet.level,
            kind,
            seconds: packet.seconds,
            nanos: packet.nanos,
            original: packet.original,
            bytes: &input.bytes()[start..start + len],
        },
        number,
    )
}
