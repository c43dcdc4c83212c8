ghost use Rattle.std.specs.Prelude.{⊤};

use crate::{NoAnswer, Row, RowReader, check_text, number, rows_of, set_up_row, wrong_count};
use std::alloc::{AllocError, Global};
use std::io;

const TEXT: &str = "# Sums.\n\nfirst 40\n2 -> 42\n3 -> 42\nx -> 42\nlast 1\n";

// The rows of that text: their lines, and what is said of them.
const ROWS: [(usize, &str); 4] = [
    (4, "states 42, answered 42"),
    (5, "states 42, answered 43"),
    (6, "states 42, no answer"),
    (7, "states last 1, no answer"),
];

// `first N` sets a number, and `N -> SUM` asks for the sum of the two.
#[derive(Drop)]
struct Sums {
    first: u32,
}

impl RowReader for Sums {
    ghost reads = { λ _ _ _ _. ⊤ };

    fn at(_alloc: Global, _name: &str) -> Sums {
        Sums { first: 0 }
    }

    fn row(&mut self, alloc: Global, line: &str) -> Result<Option<Row>, AllocError> {
        match line.split_once(" -> ") {
            Some((second, stated)) => {
                Ok(Some(Row::new(alloc, stated, self.answer(alloc, second))?))
            }
            None => set_up_row(alloc, line, self.set_first(line)),
        }
    }
}

impl Sums {
    fn set_first(&mut self, line: &str) -> Result<(), NoAnswer> {
        self.first = number(line.strip_prefix("first ").ok_or(NoAnswer)?)?;
        Ok(())
    }

    fn answer(&self, alloc: Global, second: &str) -> Result<String, NoAnswer> {
        let sum = self.first.checked_add(number(second)?).ok_or(NoAnswer)?;
        Ok(format!(in alloc; "{sum}")?)
    }
}

#[test]
fn rows_are_read_and_compared(rt: HostRuntime) -> io::Result<()> {
    let rows = rows_of(rt.alloc(), Sums::at(rt.alloc(), "sums.txt"), TEXT)?;
    assert_eq!(rt; rows.len(), ROWS.len());
    for (row, (line, text)) in rows.iter().zip(ROWS) {
        assert_eq!(rt; row.line, line);
        assert_eq!(rt; format!(in rt.alloc(); "{row}")?.as_str(), text);
    }
    assert_eq!(rt; wrong_count(rows.as_slice()), 3);
    let wrong = check_text(&rt, "sums.txt", Sums::at(rt.alloc(), "sums.txt"), TEXT)?;
    assert_eq!(rt; wrong, 3);
    Ok(())
}
