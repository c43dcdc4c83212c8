ghost use Rattle.std.specs.Prelude.{◌≡◌, ◌++◌, OnOk, string_bytes};
ghost use Rattle.std.specs.List.{flat_map};
ghost use Rattle.simulation_text.specs.Texts.{line, number_text};

use itoa::Buffer;
use std::alloc::AllocError;

// Appends a number after a space.
fn put_number(text: &mut String, number: u128) -> Result<(), AllocError>
    ensures { OnOk result (string_bytes text.new ≡ string_bytes text.old ++ number_text number) }
{
    text.push_str(" ")?;
    text.push_str(Buffer::new().format(number))
}

// Appends the numbers, each after a space.
fn put_numbers(text: &mut String, numbers: &[u128]) -> Result<(), AllocError>
    ensures { OnOk result (string_bytes text.new ≡ string_bytes text.old ++ flat_map number_text numbers.now) }
{
    for number in numbers {
        put_number(text, *number)?;
    }
    Ok(())
}

/// Appends the line of a name and these numbers. The only error is out of memory.
#[tactic(auto, unfolding(crate::specs::Texts::line))]
pub(crate) fn put_line(text: &mut String, name: &str, numbers: &[u128]) -> Result<(), AllocError>
    ensures { OnOk result (string_bytes text.new ≡ string_bytes text.old ++ line name.now numbers.now) }
{
    text.push_str(name)?;
    put_numbers(text, numbers)?;
    text.push_str("\n")
}
