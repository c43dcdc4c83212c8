ghost use Rattle.std.specs.Prelude.{◌≡◌, ℕ, List, All, length, map, IfOk};
ghost use Rattle.std.specs.List.{range_with_len};
ghost use Rattle.pcap_records.specs.Output.{capture_text};
ghost use Rattle.switch_plan.specs.ReadingSteps.{bytes_of_files};
ghost use Rattle.switch_jobs.specs.Captures.{IsCut};
ghost use Rattle.switch_run.specs.MakingSteps.{HaveMessages, line_of_card};

use card_core::CardOut;
use pcap_records::Link;
use rotating_pick::OutOfMemory;
use slot_report::OutLine;
use std::alloc::{AllocError, Global};
use switch_jobs::into_capture;

/// The capture of each output of a board. Each output is let go once its capture is made.
pub(crate) fn output_captures(
    alloc: Global,
    nano: bool,
    link: Link,
    outputs: Vec<CardOut>,
) -> Result<Vec<Vec<u8>>, OutOfMemory>
    requires { All IsCut outputs.items }
    ensures { (messages : ℕ → List (List ℕ)) → HaveMessages messages outputs.items
        → IfOk result (λ v. bytes_of_files v ≡ map (λ j. capture_text nano link (messages j)) (range_with_len 0 (length outputs.items))) }
{
    let mut captures = Vec::new(alloc);
    for output in outputs {
        captures.push(into_capture(output, nano, link)?)?;
    }
    Ok(captures)
}

/// The report's numbers of each output of a board.
pub(crate) fn out_lines(alloc: Global, outputs: &[CardOut]) -> Result<Vec<OutLine>, AllocError>
    ensures { IfOk result (λ v. v.items ≡ map line_of_card outputs.now) }
{
    let mut lines = Vec::new(alloc);
    for output in outputs {
        lines.push(OutLine {
            packets: output.packets,
            cells: output.cells,
        })?;
    }
    Ok(lines)
}
