ghost use Rattle.std.specs.Prelude.{◌≡◌, ◌++◌, ℕ, List, Option, IfOk, OnOk, map};
ghost use Rattle.std.specs.Str.Lines.{lines};
ghost use Rattle.test_vectors.specs.declared.row.Row.{Row};
ghost use Rattle.test_vectors.specs.Reading.{AreRowsOf, Gives, is_comment, rows_at};

use crate::row::Row;
use std::alloc::{AllocError, Global};

/// How the lines of a vector file are read.
pub trait RowReader: Drop {
    /// What a line gives, by the reader before and after it.
    ghost reads: { Self → List ℕ → Option Row → Self → Type 0 };

    /// The reader of the file of this name.
    fn at(alloc: Global, name: &str) -> Self;

    /// The row that a line is; None where it sets up something for the rows after it.
    fn row(&mut self, alloc: Global, line: &str) -> Result<Option<Row>, AllocError>
        ensures { IfOk result (λ row. reads self.old line.now row self.new) };
}

/// The rows of a text, in order. Empty lines and those that begin with `#` are none.
pub fn rows_of<R: RowReader>(
    alloc: Global,
    mut reader: R,
    text: &str,
) -> Result<Vec<Row>, AllocError>
    ensures { IfOk result (λ rows. AreRowsOf R.reads reader (lines text.now) rows.items) }
{
    let lines = lines_of(alloc, text)?;
    let mut rows = Vec::new(alloc);
    for (k, line) in lines.iter().enumerate() {
        let row = row_of(alloc, &mut reader, line)?;
        add_row(&mut rows, k + 1, row)?;
    }
    Ok(rows)
}

// The row that the line is, if it is one.
fn row_of<R: RowReader>(
    alloc: Global,
    reader: &mut R,
    line: &str,
) -> Result<Option<Row>, AllocError>
    ensures { IfOk result (λ row. Gives R.reads reader.old line.now row reader.new) }
{
    if is_comment(line) {
        return Ok(None);
    }
    reader.row(alloc, line)
}

// Adds the row of the line of this number, if it has one.
fn add_row(rows: &mut Vec<Row>, number: usize, row: Option<Row>) -> Result<(), AllocError>
    ensures { OnOk result (rows.new.items ≡ rows.old.items ++ rows_at number row) }
{
    if let Some(row) = row {
        rows.push(Row {
            line: number,
            ..row
        })?;
    }
    Ok(())
}

fn lines_of(alloc: Global, text: &str) -> Result<Vec<&str>, AllocError>
    ensures { IfOk result (λ all. map (λ line. line.now) all.items ≡ lines text.now) }
{
    text.lines().collect(alloc)
}

/// Whether the line says nothing: an empty line, or one that begins with `#`.
pub fn is_comment(line: &str) -> bool
    ensures { result ≡ is_comment line.now }
{
    line.is_empty() || line.starts_with('#')
}
