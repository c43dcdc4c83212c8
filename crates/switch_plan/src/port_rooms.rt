ghost use Rattle.std.specs.Prelude.{◌≡◌, ◌≢◌, ℕ, ◌<◌, ◌≤◌, List, [], ◌∷◌, ◌++◌, max, slice_index, slice_set};
ghost use Rattle.card_core.specs.declared.plan.Planned.{Planned as APlanned};
ghost use Rattle.switch_plan.specs.Totals.{work_of, flow_of};
ghost use Rattle.switch_plan.specs.CountingSteps.{IsForwardable, AreCountable};
ghost use Rattle.switch_plan.specs.OutputSteps.{room_at, with_message, with_packet, AreFew};
ghost use Rattle.switch_plan.specs.PortSteps.{IsBroughtBy, HasRoom};

use card_core::Planned;
use cell_cutter::{
    MAX_FORWARDED_BYTES, MAX_FORWARDED_CELLS, MAX_MESSAGE_BYTES, MESSAGE_HEADER_BYTES, cells_of,
};
use reassembly::FLOWS_PER_INPUT;
use rotating_pick::{MAX_PORTS, PORT_COUNT, is_empty, lowest, only, without};

// The most cells that a packet brings to all outputs.
const MAX_WORK: u64 = MAX_FORWARDED_CELLS as u64 * MAX_PORTS as u64;

/// What the packets of a port bring to an output: the greatest message of each flow, the bytes of all
/// messages and their number.
#[derive(Clone, Copy)]
pub(crate) struct PortRoom {
    pub(crate) sizes: [u32; FLOWS_PER_INPUT],
    pub(crate) bytes: u64,
    pub(crate) messages: u64,
}

/// What the packets of a port bring to the outputs.
#[derive(Clone, Copy)]
pub(crate) struct Brought {
    /// To each output.
    pub(crate) rooms: [PortRoom; PORT_COUNT],
    /// How many cells, counted for each output.
    pub(crate) work: u64,
    /// How many packets go nowhere.
    pub(crate) aside: u64,
    /// How many of these are too long to be forwarded.
    pub(crate) oversize: u64,
}

/// What the packets of a port bring, found in one pass over them.
pub(crate) fn brought_by(packets: &[Planned]) -> Brought
    requires { AreCountable packets.now }
    ensures { IsBroughtBy packets.now result }
{
    let mut brought = Brought::nothing();
    for packet in packets {
        brought.add(packet);
    }
    brought
}

impl Brought {
    /// What no packet brings.
    pub(crate) fn nothing() -> Brought
        ensures { IsBroughtBy [] result }
    {
        let none = PortRoom {
            sizes: [0; FLOWS_PER_INPUT],
            bytes: 0,
            messages: 0,
        };
        Brought {
            rooms: [none; PORT_COUNT],
            work: 0,
            aside: 0,
            oversize: 0,
        }
    }

    // Takes a packet into account.
    fn add(&mut self, packet: &Planned)
        requires packet { IsForwardable packet.now }
        requires few { HasRoom self.old }
        ensures { (packets : List APlanned) → IsBroughtBy packets self.old → IsBroughtBy (packets ++ packet.now ∷ []) self.new }
    {
        let oversize = packet.len as usize > MAX_FORWARDED_BYTES;
        self.oversize += u64::from(oversize);
        self.aside += u64::from(packet.fan == 0);
        self.work += work_of(packet);
        add_packet(&mut self.rooms, packet);
    }
}

// The cells that a packet brings to its outputs.
fn work_of(packet: &Planned) -> u64
    requires { IsForwardable packet.now }
    ensures value { result ≡ work_of packet.now }
    ensures few { result ≤ MAX_WORK }
{
    if is_empty(packet.fan) {
        return 0;
    }
    u64::from(cells_of(packet.len)) * u64::from(packet.fan.count_ones())
}

// The flow of a packet among those of its input: an even number for unicast, an odd one for multicast.
fn flow_of(packet: &Planned) -> usize
    requires { packet.now.fan ≢ 0 }
    ensures { result ≡ flow_of packet.now }
{
    let unicast = 2 * usize::from(packet.level);
    match only(packet.fan) {
        Some(_) => unicast,
        None => unicast + 1,
    }
}

// Takes a packet into account at each of its outputs.
fn add_packet(rooms: &mut [PortRoom; PORT_COUNT], packet: &Planned)
    requires packet { IsForwardable packet.now }
    requires few { (output : ℕ) → output < MAX_PORTS → AreFew (room_at rooms.old output) }
    ensures { (output : ℕ) → output < MAX_PORTS → room_at rooms.new output ≡ with_packet output (room_at rooms.old output) packet.now }
{
    if is_empty(packet.fan) {
        return;
    }
    let flow = flow_of(packet);
    let length = MESSAGE_HEADER_BYTES as u32 + packet.len;
    let mut rest = packet.fan;
    while let Some(output) = lowest(rest) {
        rooms[output as usize] = with_message(rooms[output as usize], flow, length);
        rest = without(rest, output);
    }
}

// The room with a message of a flow.
fn with_message(room: PortRoom, flow: usize, length: u32) -> PortRoom
    requires few { AreFew room }
    requires short { length ≤ MAX_MESSAGE_BYTES }
    ensures { result ≡ with_message flow length room }
{
    PortRoom {
        sizes: with_size(room.sizes, flow, length),
        bytes: room.bytes + u64::from(length),
        messages: room.messages + 1,
    }
}

// The greatest messages with one of a flow, where there is such a flow.
fn with_size(sizes: [u32; FLOWS_PER_INPUT], flow: usize, length: u32) -> [u32; FLOWS_PER_INPUT]
    ensures { result ≡ slice_set sizes flow (max (slice_index sizes flow) length) }
{
    let mut sizes = sizes;
    if flow < FLOWS_PER_INPUT {
        sizes[flow] = sizes[flow].max(length);
    }
    sizes
}
