ghost use Rattle.std.specs.Prelude.{◌≡◌, [], ◌∷◌, List, Option, true, IsSomeAnd};
ghost use Rattle.test_vectors.specs.declared.row.Row.{Row};

use std::alloc::{AllocError, Global};
use std::collections::VecDeque;
use test_vectors::{Row, RowReader};

/// Hands out what was made of the lines of a vector file beforehand, since a plan is made by threads, and a
/// reader has nothing to start them with.
#[derive(Drop)]
pub struct Reader {
    /// What each line gives that is still to be read.
    pub rows: VecDeque<Option<Row>>,
}

impl RowReader for Reader {
    ghost use Rattle.test_vectors.specs.Rows.{is_wrong};

    // Each line gives the first that is left; where nothing is left it is a wrong row.
    ghost reads = { λ old _ given new. ((first : Option Row) (rest : List (Option Row)) → old.rows.items ≡ first ∷ rest → (given ≡ first)
        × (new.rows.items ≡ rest)) × (old.rows.items ≡ [] → IsSomeAnd given (λ row. is_wrong row ≡ true)) };

    fn at(alloc: Global, _name: &str) -> Reader {
        Reader {
            rows: VecDeque::new(alloc),
        }
    }

    fn row(&mut self, alloc: Global, line: &str) -> Result<Option<Row>, AllocError> {
        match self.rows.pop_front() {
            Some(row) => Ok(row),
            None => Ok(Some(Row::unread(alloc, line)?)),
        }
    }
}
