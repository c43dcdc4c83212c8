ghost use Rattle.std.specs.Prelude.{◌≡◌, ◌≢◌, ◌↔◌, true, IsTrue, IsOk, IsErr, IsNone, IsSomeAnd, IfOk, Some, count_by, string_bytes};
ghost use Rattle.std.specs.Option.{option_map};
ghost use Rattle.std.specs.Result.{result_ok};
ghost use Rattle.test_vectors.specs.Rows.{is_wrong};

use std::alloc::{AllocError, AllocFailed, Global};
use std::fmt;

/// A question has no answer: it cannot be read, the call does not take it, or there was no memory.
#[derive(Clone, Copy, Debug, PartialEq, Eq)]
pub struct NoAnswer;

impl From<AllocError> for NoAnswer {
    fn from(_error: AllocError) -> NoAnswer {
        NoAnswer
    }
}

impl<T: Drop> From<AllocFailed<T>> for NoAnswer {
    fn from(_error: AllocFailed<T>) -> NoAnswer {
        NoAnswer
    }
}

/// A row of a vector file: the answer that it states, and the one that the crate gave.
#[derive(Debug, Drop)]
pub struct Row {
    /// The row's line in its file, from 1 on.
    pub line: usize,
    /// The answer that it states.
    pub stated: String,
    /// The answer to its question, None where it has none.
    pub answered: Option<String>,
}

impl Row {
    /// A row, on no line yet.
    pub fn new(
        alloc: Global,
        stated: &str,
        answered: Result<String, NoAnswer>,
    ) -> Result<Row, AllocError>
        ensures stated { IfOk result (λ row. string_bytes row.stated ≡ stated.now) }
        ensures answered { IfOk result (λ row. row.answered ≡ result_ok answered) }
    {
        Ok(Row {
            line: 0,
            stated: String::from_str(alloc, stated)?,
            answered: answered.ok(),
        })
    }

    /// A line that cannot be read as a row.
    pub fn unread(alloc: Global, line: &str) -> Result<Row, AllocError>
        ensures stated { IfOk result (λ row. string_bytes row.stated ≡ line.now) }
        ensures wrong { IfOk result (λ row. is_wrong row ≡ true) }
    {
        Row::new(alloc, line, Err(NoAnswer))
    }

    /// Whether the answer is not the one that the row states.
    pub fn is_wrong(&self) -> bool
        ensures test { result ≡ is_wrong self.now }
        ensures differs { IsTrue result ↔ (option_map string_bytes self.now.answered ≢ Some (string_bytes self.now.stated)) }
    {
        match &self.answered {
            Some(answer) => answer.as_str() != self.stated.as_str(),
            None => true,
        }
    }
}

impl fmt::Display for Row {
    fn fmt<W: fmt::Write>(&self, f: &mut fmt::Formatter<W>) -> fmt::Result {
        let stated = self.stated.as_str();
        match &self.answered {
            Some(answer) => write!(f, "states {stated}, answered {answer}"),
            None => write!(f, "states {stated}, no answer"),
        }
    }
}

/// The row of a line that sets something up: none where it did, else one that cannot be read.
pub fn set_up_row(
    alloc: Global,
    line: &str,
    set_up: Result<(), NoAnswer>,
) -> Result<Option<Row>, AllocError>
    ensures done { IfOk result (λ row. IsOk set_up → IsNone row) }
    ensures refused { IfOk result (λ row. IsErr set_up → IsSomeAnd row (λ row. is_wrong row ≡ true)) }
{
    match set_up {
        Ok(()) => Ok(None),
        Err(NoAnswer) => Ok(Some(Row::unread(alloc, line)?)),
    }
}

/// How many of the rows are wrong.
pub fn wrong_count(rows: &[Row]) -> usize
    ensures { result ≡ count_by is_wrong rows.now }
{
    rows.iter().filter(|row| row.is_wrong()).count()
}
