ghost use Rattle.std.specs.Prelude.{◌≡◌, ◌<◌, ◌≤◌, ◌++◌, replicate, IfOk, OnOk};
ghost use Rattle.pcap_records.specs.declared.order.Order.TheVariants.{Little};
ghost use Rattle.pcap_records.specs.Format.{record_header, record_bytes};
ghost use Rattle.switch_words.specs.Limits.{IsUpTo};
ghost use Rattle.switch_plan.specs.Made.{made_number, made_length, made_level, made_group, made_port, frame_begin, made_frame, made_record, made_capture};

use pcap_records::{FILE_HEADER_BYTES, Link, write_header};
use rotating_pick::{MAX_PORTS, OutOfMemory};
use std::alloc::{AllocError, Global};
use switch_words::{GenJob, MAX_COUNT, MAX_SEED};

/// What every frame begins with: an Ethernet header of type 0x0800, and an IPv4 header up to its
/// destination.
const FRAME_BEGIN: [u8; 30] = [
    0, 0, 0, 0, 0, 0, 0, 0, 0, 0, 0, 0, 0x08, 0, 0x45, 0, 0, 0, 0, 0, 0, 0, 0, 0, 0, 0, 0, 0, 0, 0,
];

/// The bytes of a frame up to the end of its destination.
const WRITTEN_BYTES: u32 = 34;

/// The capture that `gen` makes for a port.
pub(crate) fn made_capture(alloc: Global, job: &GenJob, port: u32) -> Result<Vec<u8>, OutOfMemory>
    requires seed { job.now.seed ≤ MAX_SEED }
    requires count { job.now.count ≤ MAX_COUNT }
    requires ports { IsUpTo MAX_PORTS job.now.ports }
    requires port { port < job.now.ports }
    ensures { IfOk result (λ file. file.items ≡ made_capture job.now port) }
{
    let mut file = vec![in alloc; 0; FILE_HEADER_BYTES]?;
    write_header(&mut file, false, Link::Ethernet);
    for k in 0..job.count {
        push_record(&mut file, job, port, k)?;
    }
    Ok(file)
}

// The number that packet `k` of a port is made from.
fn made_number(seed: u32, port: u32, k: u32) -> u32
    requires seed { seed ≤ MAX_SEED }
    requires port { port < MAX_PORTS }
    requires count { k < MAX_COUNT }
    ensures value { result ≡ made_number seed port k }
    ensures below { result < 65537 }
{
    let place = u64::from(seed) + 101 * u64::from(k) + 13 * u64::from(port);
    ((75 * place + 74) % 65537) as u32
}

// Adds the record of packet `k` of a port.
fn push_record(file: &mut Vec<u8>, job: &GenJob, port: u32, k: u32) -> Result<(), AllocError>
    requires seed { job.now.seed ≤ MAX_SEED }
    requires count { k < MAX_COUNT }
    requires ports { IsUpTo MAX_PORTS job.now.ports }
    requires port { port < job.now.ports }
    ensures { OnOk result (file.new.items ≡ file.old.items ++ record_bytes Little (made_record job.now port k)) }
{
    let number = made_number(job.seed, port, k);
    let length = 60 + number % 1441;
    push_header(file, k, port, length)?;
    push_frame(file, job.ports, number)
}

// Adds the header of a record, of a packet of which all bytes were captured.
#[tactic(auto, unfolding(pcap_records::specs::Format::number_bytes))]
fn push_header(
    file: &mut Vec<u8>,
    seconds: u32,
    fraction: u32,
    length: u32,
) -> Result<(), AllocError>
    ensures { OnOk result (file.new.items ≡ file.old.items ++ record_header Little seconds fraction length length) }
{
    file.extend_from_slice(&seconds.to_le_bytes())?;
    file.extend_from_slice(&fraction.to_le_bytes())?;
    file.extend_from_slice(&length.to_le_bytes())?;
    file.extend_from_slice(&length.to_le_bytes())
}

// Adds the frame that is made from a number.
#[tactic(auto, unfolding(crate::specs::Made::made_frame))]
fn push_frame(file: &mut Vec<u8>, ports: u32, number: u32) -> Result<(), AllocError>
    requires ports { IsUpTo MAX_PORTS ports }
    ensures { OnOk result (file.new.items ≡ file.old.items ++ made_frame ports number) }
{
    let level = (number % 4) as u8;
    let port = (number / 8 % ports) as u8;
    push_begin(file)?;
    file.extend_from_slice(&[10, level, made_group(number), port])?;
    push_zeros(file, 60 + number % 1441 - WRITTEN_BYTES)
}

// Adds what every frame begins with.
#[tactic(auto, unfolding(crate::specs::Made::frame_begin))]
fn push_begin(file: &mut Vec<u8>) -> Result<(), AllocError>
    ensures { OnOk result (file.new.items ≡ file.old.items ++ frame_begin) }
{
    file.extend_from_slice(&FRAME_BEGIN)
}

// The group of the destination: two ports for one number of eight.
fn made_group(number: u32) -> u8
    ensures { result ≡ made_group number }
{
    if number / 4 % 8 == 0 { 1 } else { 0 }
}

// Adds `count` zeros.
fn push_zeros(file: &mut Vec<u8>, count: u32) -> Result<(), AllocError>
    ensures { OnOk result (file.new.items ≡ file.old.items ++ replicate count 0) }
{
    file.resize(file.len() + count as usize, 0)
}
