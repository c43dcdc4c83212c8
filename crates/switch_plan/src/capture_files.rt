ghost use Rattle.std.specs.Prelude.{◌≡◌, ◌≢◌, ◌⊎◌, ℕ, ◌^◌, ◌<◌, ◌≤◌, List, All, vec_len, IfOk, IfErr};
ghost use Rattle.pcap_records.specs.declared.fault.PcapFault.{PcapFault};
ghost use Rattle.switch_plan.specs.Refusals.{IsFirstFault};
ghost use Rattle.switch_plan.specs.ReadingSteps.{bytes_of_files, IsReadAs, AreReadAs, AreCapturesOf};

use crate::by_port::{SMALL_CAPTURE, map_ports};
use crate::fault::PlanFault;
use pcap_records::{Capture, PcapFault, read_capture};
use rotating_pick::MAX_PORTS;
use std::alloc::{AllocError, Global};
use std::thread::Threads;

/// The captures of all ports. Each file is read by itself, in threads where there are some and a file is not
/// small; the first that is none is answered with its fault.
pub(crate) fn read_captures<R: Threads + Sync>(
    rt: &R,
    alloc: Global,
    files: Vec<Vec<u8>>,
) -> Result<Vec<Capture>, PlanFault>
    requires few { vec_len files ≤ MAX_PORTS }
    requires sizes { All (λ file. vec_len file < 2 ^ 32) files.items }
    ensures read { IfOk result (λ captures. AreCapturesOf (bytes_of_files files) captures.items) }
    ensures refused { IfErr result
        (λ answer. (answer ≡ PlanFault.OutOfMemory)
        ⊎ ((port : ℕ) × (fault : PcapFault) × (answer ≡ PlanFault.Capture port fault) × IsFirstFault (bytes_of_files files) port fault)) }
{
    in_order(alloc, read_each(rt, alloc, files)?)
}

// Reads each file.
fn read_each<R: Threads + Sync>(
    rt: &R,
    alloc: Global,
    files: Vec<Vec<u8>>,
) -> Result<Vec<Result<Capture, PcapFault>>, AllocError>
    requires sizes { All (λ file. vec_len file < 2 ^ 32) files.items }
    ensures { IfOk result (λ answers. AreReadAs (bytes_of_files files) answers.items) }
{
    let small = files.iter().all(|file| file.len() <= SMALL_CAPTURE);
    map_ports(rt, alloc, small, files, &|file| read_one(alloc, file))
}

// Reads a file.
fn read_one(alloc: Global, file: Vec<u8>) -> Result<Capture, PcapFault>
    requires { vec_len file < 2 ^ 32 }
    ensures { IsReadAs file.items result }
{
    read_capture(alloc, file)
}

// The refusal of a fault of a port's file.
fn refusal(port: u32, fault: PcapFault) -> PlanFault
    ensures memory { fault ≡ PcapFault.OutOfMemory → result ≡ PlanFault.OutOfMemory }
    ensures other { fault ≢ PcapFault.OutOfMemory → result ≡ PlanFault.Capture port fault }
{
    match fault {
        PcapFault::OutOfMemory => PlanFault::OutOfMemory,
        fault => PlanFault::Capture { port, fault },
    }
}

// The captures that were read, or the first fault.
fn in_order(
    alloc: Global,
    answers: Vec<Result<Capture, PcapFault>>,
) -> Result<Vec<Capture>, PlanFault>
    requires few { vec_len answers ≤ MAX_PORTS }
    ensures read { (files : List (List ℕ)) → AreReadAs files answers.items → IfOk result (λ captures. AreCapturesOf files captures.items) }
    ensures refused { (files : List (List ℕ)) → AreReadAs files answers.items
        → IfErr result (λ answer. (answer ≡ PlanFault.OutOfMemory)
        ⊎ ((port : ℕ) × (fault : PcapFault) × (answer ≡ PlanFault.Capture port fault) × IsFirstFault files port fault)) }
{
    let mut captures = Vec::new(alloc);
    for answer in answers {
        match answer {
            Ok(capture) => captures.push(capture)?,
            Err(fault) => return Err(refusal(captures.len() as u32, fault)),
        }
    }
    Ok(captures)
}
