ghost use Rattle.std.specs.Prelude.{◌≡◌, map, OnErr, OnOk};
ghost use Rattle.std.specs.List.{concat};
ghost use Rattle.outside.specs.Contents.{Contents};
ghost use Rattle.outside.specs.Faults.{ToErr, NeverFall, NoneRose, Rose};
ghost use Rattle.simulation_command.specs.ErrorLines.{GivesLine, line_of};
ghost use Rattle.simulation_command.specs.LineSteps.{Gives};

use crate::fault::CommandFault;
use itoa::Buffer;
use outside::{Failed, Files};

// Gives all of the bytes to standard error, in as many calls as it takes.
fn give_bytes<F: Files>(files: &mut F, bytes: &[u8]) -> Result<(), Failed>
    ensures seen { (c : Contents) → Gives result bytes.now (F.seen c files.old) (F.seen c files.new) }
    ensures cause { OnErr result (Rose (F.faults files.old ToErr) (F.faults files.new ToErr)) }
    ensures no_fault { OnOk result (NoneRose (F.faults files.old) (F.faults files.new)) }
    ensures never_fall { NeverFall (F.faults files.old) (F.faults files.new) }
{
    let mut at = 0;
    while at < bytes.len() {
        at += files.err(&bytes[at..])?;
    }
    Ok(())
}

// Gives all of a part of a line to standard error.
fn give_part<F: Files>(files: &mut F, part: &str) -> Result<(), Failed>
    ensures seen { (c : Contents) → Gives result part.now (F.seen c files.old) (F.seen c files.new) }
    ensures cause { OnErr result (Rose (F.faults files.old ToErr) (F.faults files.new ToErr)) }
    ensures no_fault { OnOk result (NoneRose (F.faults files.old) (F.faults files.new)) }
    ensures never_fall { NeverFall (F.faults files.old) (F.faults files.new) }
{
    give_bytes(files, part.as_bytes())
}

// Gives the parts of a line to standard error, one after the other, up to a call that fails.
fn give_parts<F: Files>(files: &mut F, parts: &[&str])
    ensures line { (c : Contents) → GivesLine (concat (map (λ part. part.now) parts.now)) (F.seen c files.old) (F.seen c files.new)
        (F.faults files.old ToErr) (F.faults files.new ToErr) }
    ensures never_fall { NeverFall (F.faults files.old) (F.faults files.new) }
{
    for part in parts {
        if give_part(files, part).is_err() {
            return;
        }
    }
}

/// Gives standard error the line of a fault. Where a call fails, the rest of the line is left out.
pub(crate) fn print_fault<F: Files>(files: &mut F, fault: CommandFault)
    ensures line { (c : Contents) → GivesLine (line_of fault) (F.seen c files.old) (F.seen c files.new) (F.faults files.old ToErr)
        (F.faults files.new ToErr) }
    ensures never_fall { NeverFall (F.faults files.old) (F.faults files.new) }
{
    match fault {
        CommandFault::Usage => {
            give_parts(
                files,
                &["usage: tiny_tera simulate [options] SEED SLOTS PORTS\n"],
            );
        }
        CommandFault::TooManyCells { cells } => {
            let mut digits = Buffer::new();
            give_parts(files, &["too many cells: ", digits.format(cells), "\n"]);
        }
        CommandFault::OutOfMemory => give_parts(files, &["out of memory\n"]),
        CommandFault::OutFault => give_parts(files, &["write fault: standard output\n"]),
    }
}
