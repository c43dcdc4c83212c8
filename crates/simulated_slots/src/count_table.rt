ghost use Rattle.std.specs.Prelude.{◌≡◌, ◌+◌, ◌<◌, ◌^◌, ℕ, List, [], ◌∷◌, ◌++◌, length, slice_index, replicate, IfOk};
ghost use Rattle.simulated_slots.specs.TableSteps.{HasCounted};

use std::alloc::{AllocError, Global};
use std::marker::Model;

/// How often each of the first numbers came.
#[derive(Drop)]
pub struct CountTable {
    counts: Vec<u64>,
    total: u64,
}

impl Model for CountTable {
    ghost use Rattle.std.specs.Prelude.{ℕ, List};
    ghost use Rattle.simulated_slots.specs.TableSteps.{CountTable, HasCounted};

    ghost Value = { CountTable };

    ghost view = { λ t. record { counts = t.counts.items; total = t.total } };

    ghost invariant = { λ t. (numbers : List ℕ) × HasCounted (record { counts = t.counts.items; total = t.total }) numbers };
}

impl CountTable {
    /// A table of the numbers below `size`, of which none has come. It takes all memory that the table needs.
    pub fn make(alloc: Global, size: u32) -> Result<CountTable, AllocError>
        ensures size { IfOk result (λ table. length table.counts ≡ size) }
        ensures none { IfOk result (λ table. HasCounted table []) }
    {
        Ok(CountTable {
            counts: zeros(alloc, size)?,
            total: 0,
        })
    }

    /// How many numbers came.
    pub fn total(&self) -> u64
        ensures { result ≡ self.now.total }
    {
        self.total
    }

    /// How often this number came.
    pub fn count(&self, number: u32) -> u64
        requires { number < length self.now.counts }
        ensures { result ≡ slice_index self.now.counts number }
    {
        self.counts[number as usize]
    }

    /// This number comes.
    pub fn note(&mut self, number: u32)
        requires size { number < length self.old.counts }
        requires few { self.old.total < 2 ^ 63 }
        ensures size { length self.new.counts ≡ length self.old.counts }
        ensures total { self.new.total ≡ self.old.total + 1 }
        ensures counted { (numbers : List ℕ) → HasCounted self.old numbers → HasCounted self.new (numbers ++ number ∷ []) }
    {
        self.counts[number as usize] += 1;
        self.total += 1;
    }
}

// So many zeros.
fn zeros(alloc: Global, size: u32) -> Result<Vec<u64>, AllocError>
    ensures { IfOk result (λ zeros. zeros.items ≡ replicate size 0) }
{
    let mut zeros = Vec::with_capacity(alloc, size as usize)?;
    for _ in 0..size {
        zeros.push(0)?;
    }
    Ok(zeros)
}
