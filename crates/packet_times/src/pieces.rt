ghost use Rattle.std.specs.Prelude.{◌≡◌, ◌≤◌, ◌++◌, ◌↔◌, ℕ, [], true, length, take};
ghost use Rattle.eslip_rounds.specs.Schedulers.{Scheduler};
ghost use Rattle.switch_plan.specs.GoodPlans.{SwitchPlan};
ghost use Rattle.run_laws.specs.Promises.{ArrivalsComeFirst};
ghost use Rattle.packet_times.specs.Rows.{packets_text_under};
ghost use Rattle.packet_times.specs.NotingSteps.{HasNoted};
ghost use Rattle.packet_times.specs.KeptSteps.{left};

use crate::fields::{MOST_ROW_BYTES, put_bytes, put_row};
use crate::times::{HEADER, PacketTimes};
use crate::walk::Walk;
use std::marker::Model;

/// The packets file of a run, which is given piece by piece: see [`PacketTimes::into_rows`].
#[derive(Drop)]
pub struct PacketRows {
    times: PacketTimes,
    walk: Walk,
    // Whether the header was given.
    began: bool,
}

impl Model for PacketRows {
    ghost use Rattle.packet_times.specs.KeptSteps.{Pieces};

    ghost Value = { Pieces };

    ghost view = { λ r. record { times = r.times; walk = r.walk; began = r.began } };
}

impl PacketTimes {
    /// The packets file of the run of which so many slots were noted, and by whose end all packets have arrived.
    pub fn into_rows(self) -> PacketRows
        ensures { (scheduler : Scheduler) (plan : SwitchPlan) (slots : ℕ) → HasNoted scheduler plan self slots → ArrivalsComeFirst plan slots
            → left result ≡ packets_text_under scheduler plan slots }
    {
        PacketRows {
            times: self,
            walk: Walk::at(0),
            began: false,
        }
    }
}

impl PacketRows {
    // Puts the header first, where it was not given. Answers the place after it.
    fn put_header(&mut self, buf: &mut [u8]) -> usize
        requires { 256 ≤ length buf.old }
        ensures text { left self.old ≡ take result buf.new ++ left self.new }
        ensures long { length buf.new ≡ length buf.old }
        ensures few { result ≤ 128 }
        ensures began { self.new.began ≡ true }
    {
        if self.began {
            return 0;
        }
        self.began = true;
        put_bytes(buf, 0, HEADER.as_bytes())
    }

    /// Puts the next piece of the file into a slice of 256 bytes or more, and answers how many bytes that are: 0 where
    /// nothing is left of the file. It puts whole lines alone, and takes no memory.
    pub fn put(&mut self, buf: &mut [u8]) -> usize
        requires { 256 ≤ length buf.old }
        ensures text { left self.old ≡ take result buf.new ++ left self.new }
        ensures room { result ≤ length buf.old }
        ensures end { result ≡ 0 ↔ left self.old ≡ [] }
    {
        let mut at = self.put_header(buf);
        let mut line = [0; MOST_ROW_BYTES];
        while buf.len() - at >= MOST_ROW_BYTES {
            let Some(row) = self.times.next_row(&mut self.walk) else {
                break;
            };
            at = put_row(buf, at, &mut line, &row);
        }
        at
    }
}
