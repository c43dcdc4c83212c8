ghost use Rattle.std.specs.Prelude.{◌≡◌, ◌++◌, ◌≤◌, ◌<◌, OnOk, length, string_bytes};
ghost use Rattle.rotating_pick.specs.declared.limits.TheConstants.{MAX_PORTS};
ghost use Rattle.slot_report.specs.Lines.{line_text, lines_text};
ghost use Rattle.queue_lengths.specs.Lengths.{count_of};
ghost use Rattle.queue_measures.specs.Lines.{queue_line, queue_name, deepest_line};
ghost use Rattle.queue_measures.specs.Steps.{queue_at, line_at, numbers_text};

use crate::numbers::QueueNumbers;
use itoa::{Buffer, Integer};
use rotating_pick::LEVELS;
use std::alloc::AllocError;

/// Appends the lines of the queues of an input that a packet was for. `numbers` has those of each queue, by its place.
pub(crate) fn put_input(
    text: &mut String,
    ports: u32,
    input: u32,
    numbers: &[QueueNumbers],
) -> Result<(), AllocError>
    requires { length numbers.now ≤ count_of MAX_PORTS }
    ensures { OnOk result (string_bytes text.new ≡ string_bytes text.old ++ numbers_text ports input numbers.now) }
{
    for (place, queue) in numbers.iter().enumerate() {
        put_used(text, ports, input, place as u32, *queue)?;
    }
    Ok(())
}

/// Appends the line of the greatest length.
pub(crate) fn put_deepest(text: &mut String, most: u32) -> Result<(), AllocError>
    ensures { OnOk result (string_bytes text.new ≡ string_bytes text.old ++ line_text (deepest_line most)) }
{
    put_number(text, "deepest ", most)?;
    text.push_str("\n")
}

// Appends the line of the queue at a place, if a packet was for it.
fn put_used(
    text: &mut String,
    ports: u32,
    input: u32,
    place: u32,
    numbers: QueueNumbers,
) -> Result<(), AllocError>
    ensures { OnOk result (string_bytes text.new ≡ string_bytes text.old ++ lines_text (line_at ports input place numbers)) }
{
    if numbers.packets > 0 {
        put_queue(text, ports, input, place, numbers)?;
    }
    Ok(())
}

// Appends the line of the queue at a place.
fn put_queue(
    text: &mut String,
    ports: u32,
    input: u32,
    place: u32,
    numbers: QueueNumbers,
) -> Result<(), AllocError>
    ensures { OnOk result (string_bytes text.new ≡ string_bytes text.old ++ line_text (queue_line input (queue_at ports place) numbers)) }
{
    text.push_str("queue ")?;
    put_name(text, ports, input, place)?;
    put_number(text, " packets ", numbers.packets)?;
    put_number(text, " dropped ", numbers.dropped)?;
    put_number(text, " cells ", numbers.cells)?;
    put_number(text, " peak ", numbers.peak)?;
    put_number(text, " slot ", numbers.slot)?;
    text.push_str("\n")
}

// Appends the name of the queue at a place.
fn put_name(text: &mut String, ports: u32, input: u32, place: u32) -> Result<(), AllocError>
    ensures { OnOk result (string_bytes text.new ≡ string_bytes text.old ++ queue_name input (queue_at ports place)) }
{
    let output = place / LEVELS;
    let level = place % LEVELS;
    put_number(text, "", input)?;
    if output < ports {
        put_number(text, ">", output)?;
        put_number(text, ":", level)?;
        text.push_str("u")
    } else {
        put_number(text, ">*:", level)?;
        text.push_str("m")
    }
}

// Appends a name, and the decimal digits of a number.
fn put_number<I: Integer>(text: &mut String, name: &str, number: I) -> Result<(), AllocError>
    ensures { OnOk result (string_bytes text.new ≡ string_bytes text.old ++ name.now ++ I.text number) }
{
    text.push_str(name)?;
    text.push_str(Buffer::new().format(number))
}
