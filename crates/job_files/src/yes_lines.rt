ghost use Rattle.std.specs.Prelude.{◌≡◌, ◌∷◌, ◌++◌, map, decimal, IfOk, OnOk, string_bytes};
ghost use Rattle.std.specs.List.{flat_map};
ghost use Rattle.slot_report.specs.Lines.{line_text};
ghost use Rattle.slot_report.specs.PieceSteps.{after_space};
ghost use Rattle.job_files.specs.Checks.{yes_text};

use itoa::Buffer;
use rotating_pick::LEVEL_COUNT;
use std::alloc::{AllocError, Global};

/// The lines of yes: `yes`, the slots, and the longest wait of each level.
pub(crate) fn yes_lines(
    alloc: Global,
    slots: u32,
    longest: &[u32; LEVEL_COUNT],
) -> Result<String, AllocError>
    ensures { IfOk result (λ text. string_bytes text ≡ yes_text slots longest.now) }
{
    let mut text = String::new(alloc);
    put_line(&mut text, "yes", &[])?;
    put_line(&mut text, "slots", &[slots])?;
    put_line(&mut text, "longest", longest)?;
    Ok(text)
}

// Appends the line of a name and these numbers.
fn put_line(text: &mut String, name: &str, numbers: &[u32]) -> Result<(), AllocError>
    ensures { OnOk result (string_bytes text.new ≡ string_bytes text.old ++ line_text (name.now ∷ map decimal numbers.now)) }
{
    text.push_str(name)?;
    put_numbers(text, numbers)?;
    text.push_str("\n")
}

// Appends the numbers, each after a space.
fn put_numbers(text: &mut String, numbers: &[u32]) -> Result<(), AllocError>
    ensures { OnOk result (string_bytes text.new ≡ string_bytes text.old ++ flat_map after_space (map decimal numbers.now)) }
{
    for number in numbers {
        put_number(text, *number)?;
    }
    Ok(())
}

// Appends a number after a space.
fn put_number(text: &mut String, number: u32) -> Result<(), AllocError>
    ensures { OnOk result (string_bytes text.new ≡ string_bytes text.old ++ after_space (decimal number)) }
{
    text.push_str(" ")?;
    text.push_str(Buffer::new().format(number))
}
