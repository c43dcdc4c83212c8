ghost use Rattle.std.specs.Prelude.{◌≡◌, ◌^◌, ◌<◌, ◌≤◌, [], length};
ghost use Rattle.std.specs.List.{sum_by};
ghost use Rattle.service_bound.specs.MeterSteps.{HasNoted};
ghost use Rattle.switch_jobs.specs.JournalSteps.{summary_with, summary_in, HaveSums};

use crate::meters::longest_waits;
use crate::ready::Terms;
use card_core::CardOut;
use rotating_pick::LEVEL_COUNT;
use service_bound::{MAX_NOTED, WaitMeter};
use slot_board::Journal;
use slot_report::Summary;

/// The numbers of a run of so many slots, each of so many rounds, in a switch of so many ports, with these longest
/// waits by level, whose cards left these outputs. It takes no memory.
pub fn sum_up(
    terms: &Terms,
    ports: u32,
    rounds: u32,
    slots: u32,
    outputs: &[CardOut],
    longest: [u32; LEVEL_COUNT],
) -> Summary
    requires { HaveSums outputs.now }
    ensures { result ≡ summary_with terms.now ports rounds slots outputs.now longest }
{
    Summary {
        ports,
        rounds,
        depth: terms.depth,
        slots,
        packets: terms.packets,
        oversize: terms.oversize,
        unrouted: terms.unrouted,
        dropped: dropped_in(outputs),
        forwarded: admitted_in(outputs),
        copies: packets_in(outputs),
        cells: cells_in(outputs),
        longest,
    }
}

// How many packets were dropped.
fn dropped_in(outputs: &[CardOut]) -> u32
    requires { sum_by (λ out. out.dropped) outputs.now < 2 ^ 32 }
    ensures { result ≡ sum_by (λ out. out.dropped) outputs.now }
{
    outputs.iter().map(|out| out.dropped).sum()
}

// How many packets were admitted.
fn admitted_in(outputs: &[CardOut]) -> u32
    requires { sum_by (λ out. out.admitted) outputs.now < 2 ^ 32 }
    ensures { result ≡ sum_by (λ out. out.admitted) outputs.now }
{
    outputs.iter().map(|out| out.admitted).sum()
}

// How many packets left by an output.
fn packets_in(outputs: &[CardOut]) -> u32
    requires { sum_by (λ out. out.packets) outputs.now < 2 ^ 32 }
    ensures { result ≡ sum_by (λ out. out.packets) outputs.now }
{
    outputs.iter().map(|out| out.packets).sum()
}

// How many cells came to an output.
fn cells_in(outputs: &[CardOut]) -> u32
    requires { sum_by (λ out. out.cells) outputs.now < 2 ^ 32 }
    ensures { result ≡ sum_by (λ out. out.cells) outputs.now }
{
    outputs.iter().map(|out| out.cells).sum()
}

/// The numbers of a run with this journal, whose cards left these outputs. It takes no memory.
pub(crate) fn summarize(
    terms: &Terms,
    journal: &Journal,
    outputs: &[CardOut],
    meter: WaitMeter,
) -> Summary
    requires meter { HasNoted meter [] }
    requires ports { meter.ports ≡ journal.now.setup.ports }
    requires slots { length journal.now.slots ≤ MAX_NOTED }
    requires sums { HaveSums outputs.now }
    ensures { result ≡ summary_in terms.now journal.now outputs.now }
{
    let longest = longest_waits(meter, journal);
    sum_up(
        terms,
        journal.ports(),
        journal.rounds(),
        journal.slots(),
        outputs,
        longest,
    )
}
