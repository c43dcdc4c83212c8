ghost use Rattle.std.specs.Prelude.{◌≡◌, ◌↔◌, All, IfOk};
ghost use Rattle.std.specs.Process.{exit_status};
ghost use Rattle.std.specs.Str.Lines.{lines};
ghost use Rattle.test_vectors.specs.Reading.{IsWrongCount};

use crate::row::{Row, wrong_count};
use crate::row_reader::{RowReader, rows_of};
use std::process::ExitCode;
use std::rt::{Env, Files};
use std::{env, fs, io};

/// Checks each file that the command line names, as `check_text` does. The status is 0 where no row
/// is wrong, else 1.
pub fn check_named_files<R: RowReader>(
    rt: &(impl Env + Files + Print + Eprint + AllocGlobal),
) -> io::Result<ExitCode> {
    let mut counts = Vec::new(rt.alloc());
    for path in env::args(rt)?.skip(1) {
        counts.push(check_file::<R>(rt, path.as_str())?)?;
    }
    Ok(exit_code(counts.as_slice()))
}

// The status at these numbers of wrong rows.
fn exit_code(counts: &[usize]) -> ExitCode
    ensures { (exit_status result ≡ 0) ↔ All (λ wrong. wrong ≡ 0) counts.now }
{
    if counts.iter().all(|wrong| *wrong == 0) {
        ExitCode::SUCCESS
    } else {
        ExitCode::FAILURE
    }
}

fn check_file<R: RowReader>(
    rt: &(impl Files + Print + Eprint + AllocGlobal),
    path: &str,
) -> io::Result<usize> {
    let text = fs::read_to_string(rt, path)?;
    let reader = R::at(rt.alloc(), base_name(path));
    check_text(rt, path, reader, text.as_str())
}

// The last part of a path.
fn base_name(path: &str) -> &str {
    match path.rsplit_once('/') {
        Some((_, name)) => name,
        None => path,
    }
}

/// Answers how many rows of the named text are wrong. Prints a line with that number, and names each
/// wrong row on standard error.
pub fn check_text<R: RowReader>(
    rt: &(impl Print + Eprint + AllocGlobal),
    name: &str,
    reader: R,
    text: &str,
) -> io::Result<usize>
    ensures { IfOk result (IsWrongCount R.reads reader (lines text.now)) }
{
    let rows = rows_of(rt.alloc(), reader, text)?;
    name_wrong_rows(rt, name, rows.as_slice())?;
    let count = rows.len();
    let wrong = wrong_count(rows.as_slice());
    println!(rt; "{name}: {count} rows, {wrong} wrong")?;
    Ok(wrong)
}

// Names each wrong row on standard error.
fn name_wrong_rows(rt: &impl Eprint, name: &str, rows: &[Row]) -> io::Result<()> {
    for row in rows {
        if row.is_wrong() {
            eprintln!(rt; "{name} line {}: {row}", row.line)?;
        }
    }
    Ok(())
}
