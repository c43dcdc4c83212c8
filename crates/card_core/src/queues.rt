ghost use Rattle.std.specs.Prelude.{◌≡◌, ◌<◌, IfOk};
ghost use Rattle.voq_banks.specs.Queues.{empty_queues as empty_unis};
ghost use Rattle.multicast_queue.specs.FanQueues.{empty_queues as empty_fans};
ghost use Rattle.card_core.specs.StateSteps.{MayEnter, Enters, MayLeave, Leaves, row_of};

use crate::rooms::Rooms;
use cell_cutter::CellName;
use multicast_queue::FanQueues;
use rotating_pick::{Kind, OutOfMemory, Ports, lowest, only};
use slot_match::{Row, Served};
use std::alloc::Global;
use std::marker::Model;
use voq_banks::Banks;

/// The queues of one input: of its unicast cells a queue for each output and level, of its multicast cells
/// one for each level.
#[derive(Drop)]
pub struct Queues {
    unicast: Banks,
    multicast: FanQueues,
}

impl Model for Queues {
    ghost use Rattle.card_core.specs.InputQueues.{InputQueues};

    ghost Value = { InputQueues };

    ghost view = { λ q. record { unicast = q.unicast; multicast = q.multicast } };
}

impl Queues {
    /// Empty queues of at most `depth` cells each, one or more, which as many packets will enter as `rooms`
    /// counts. It takes all memory that the queues need.
    pub fn make(alloc: Global, depth: u32, rooms: &Rooms) -> Result<Queues, OutOfMemory>
        requires some { 0 < rooms.now.ports }
        requires deep { 0 < depth }
        ensures unicast { IfOk result (λ queues. queues.unicast ≡ empty_unis rooms.now.ports depth rooms.now.unicast) }
        ensures multicast { IfOk result (λ queues. queues.multicast ≡ empty_fans rooms.now.ports depth rooms.now.multicast) }
    {
        Ok(Queues {
            unicast: Banks::make(alloc, rooms.ports, depth, &rooms.unicast)?,
            multicast: FanQueues::make(alloc, rooms.ports, depth, &rooms.multicast)?,
        })
    }

    /// A packet of `cells` cells, 1 to 1,171, enters the queue of its fan-out, one or more of the switch's
    /// ports, and its level, 0 to 3, where it fits: with it the queue has at most the depth. Answers whether
    /// it did; if not, all stays. The queue has room for one packet more.
    pub fn enter(&mut self, level: u8, packet: u32, cells: u32, fan: Ports) -> bool
        requires { MayEnter self.old.unicast self.old.multicast fan level cells }
        ensures { Enters packet fan level cells result self.old.unicast self.old.multicast self.new.unicast self.new.multicast }
    {
        match only(fan) {
            Some(output) => self.unicast.offer(output, level, packet, cells),
            None => self.multicast.offer(level, packet, cells, fan),
        }
    }

    /// The row that the queues give: for each level the outputs that unicast cells wait for, and the
    /// remaining fan-out of the multicast head.
    pub fn row(&self) -> Row
        ensures { result ≡ row_of self.now.unicast self.now.multicast }
    {
        Row {
            uni: [
                self.unicast.mask(0),
                self.unicast.mask(1),
                self.unicast.mask(2),
                self.unicast.mask(3),
            ],
            multi: [
                self.multicast.fan(0),
                self.multicast.fan(1),
                self.multicast.fan(2),
                self.multicast.fan(3),
            ],
        }
    }

    /// Takes what was served, outputs that the row names at the level with the kind, off its queue. Answers the
    /// name of the cell that was its first.
    pub fn leave(&mut self, part: Served) -> CellName
        requires { MayLeave part.kind self.old.unicast self.old.multicast part }
        ensures { Leaves part.kind part result self.old.unicast self.old.multicast self.new.unicast self.new.multicast }
    {
        match part.kind {
            Kind::Uni => {
                let Some(output) = lowest(part.outputs) else {
                    unreachable!()
                };
                self.unicast.pop(output, part.level)
            }
            Kind::Multi => {
                let Some(name) = self.multicast.head(part.level) else {
                    unreachable!()
                };
                self.multicast.served(part.level, part.outputs);
                name
            }
        }
    }
}
