ghost use Rattle.std.specs.Prelude.{◌≡◌, ◌∷◌, ◌++◌, ◌≤◌, length, decimal, IfOk, OnOk, string_bytes};
ghost use Rattle.rotating_pick.specs.declared.limits.TheConstants.{MAX_PORTS};
ghost use Rattle.slot_report.specs.Lines.{line_text, lines_text};
ghost use Rattle.output_queued.specs.Texts.{reference_line, reference_lines};

use crate::line::RefLine;
use itoa::{Buffer, Integer};
use rotating_pick::OutOfMemory;
use std::alloc::{AllocError, Global};

// The most bytes of a line: two digits of the output, three numbers of ten digits and one of twenty.
const LINE_BYTES: usize = 84;

/// The line of each of these outputs, 64 at most, from output 0 on: `reference`, the output, `ends`, `runs`,
/// `lead` and `extra`, each name with its number. The only error is out of memory.
pub fn reference_text(alloc: Global, lines: &[RefLine]) -> Result<String, OutOfMemory>
    requires { length lines.now ≤ MAX_PORTS }
    ensures { IfOk result (λ text. string_bytes text ≡ lines_text (reference_lines lines.now)) }
{
    let mut text = String::with_capacity(alloc, LINE_BYTES * lines.len())?;
    for (j, line) in lines.iter().enumerate() {
        put_line(&mut text, j as u32, *line)?;
    }
    Ok(text)
}

// Appends the line of an output.
fn put_line(text: &mut String, output: u32, line: RefLine) -> Result<(), AllocError>
    ensures { OnOk result (string_bytes text.new ≡ string_bytes text.old ++ line_text (reference_line output line)) }
{
    put_number(text, "reference ", output)?;
    put_number(text, " ends ", line.ends)?;
    put_number(text, " runs ", line.runs)?;
    put_number(text, " lead ", line.lead)?;
    put_number(text, " extra ", line.extra)?;
    text.push_str("\n")
}

// Appends a name, and the decimal digits of a number.
fn put_number<I: Integer>(text: &mut String, name: &str, number: I) -> Result<(), AllocError>
    ensures { OnOk result (string_bytes text.new ≡ string_bytes text.old ++ name.now ++ I.text number) }
{
    text.push_str(name)?;
    text.push_str(Buffer::new().format(number))
}
