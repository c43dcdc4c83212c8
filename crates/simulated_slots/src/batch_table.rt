ghost use Rattle.std.specs.Prelude.{◌≡◌, ◌+◌, ◌<◌, ◌≤◌, ◌^◌, List, [], ◌∷◌, ◌++◌, length, slice_index, replicate, IfOk};
ghost use Rattle.simulated_slots.specs.TableSteps.{BatchDelay, HasBatched};

use crate::count_table::CountTable;
use std::alloc::{AllocError, Global};
use std::marker::Model;

/// For each of the first numbers, which are those of batches: how many delays it has, and their sum.
#[derive(Drop)]
pub struct BatchTable {
    departed: CountTable,
    delays: Vec<u128>,
}

impl Model for BatchTable {
    ghost use Rattle.std.specs.Prelude.{List};
    ghost use Rattle.simulated_slots.specs.TableSteps.{BatchDelay, BatchTable, HasBatched};

    ghost Value = { BatchTable };

    ghost view = { λ t. record { departed = t.departed; delays = t.delays.items } };

    ghost invariant = { λ t. (noted : List BatchDelay) × HasBatched (record { departed = t.departed; delays = t.delays.items }) noted };
}

impl BatchTable {
    /// So many batches without delays. It takes all memory that the table needs.
    pub fn make(alloc: Global, size: u32) -> Result<BatchTable, AllocError>
        ensures size { IfOk result (λ table. length table.delays ≡ size) }
        ensures size_departed { IfOk result (λ table. length table.departed.counts ≡ size) }
        ensures none { IfOk result (λ table. HasBatched table []) }
    {
        Ok(BatchTable {
            departed: CountTable::make(alloc, size)?,
            delays: zeros(alloc, size)?,
        })
    }

    /// How many delays the batch has.
    pub fn departed(&self, batch: u32) -> u64
        requires { batch < length self.now.departed.counts }
        ensures { result ≡ slice_index self.now.departed.counts batch }
    {
        self.departed.count(batch)
    }

    /// The sum of its delays.
    pub fn delays(&self, batch: u32) -> u128
        requires { batch < length self.now.delays }
        ensures { result ≡ slice_index self.now.delays batch }
    {
        self.delays[batch as usize]
    }

    /// The batch has one delay more.
    pub fn note(&mut self, batch: u32, delay: u32)
        requires size { batch < length self.old.delays }
        requires size_departed { batch < length self.old.departed.counts }
        requires few { self.old.departed.total < 2 ^ 63 }
        ensures size { length self.new.delays ≡ length self.old.delays }
        ensures size_departed { length self.new.departed.counts ≡ length self.old.departed.counts }
        ensures total { self.new.departed.total ≡ self.old.departed.total + 1 }
        ensures noted { (noted : List BatchDelay) → HasBatched self.old noted → HasBatched self.new (noted ++ record { batch = batch; delay = delay } ∷ []) }
    {
        self.departed.note(batch);
        self.delays[batch as usize] += u128::from(delay);
    }
}

// So many zeros.
fn zeros(alloc: Global, size: u32) -> Result<Vec<u128>, AllocError>
    ensures { IfOk result (λ zeros. zeros.items ≡ replicate size 0) }
{
    let mut zeros = Vec::with_capacity(alloc, size as usize)?;
    for _ in 0..size {
        zeros.push(0)?;
    }
    Ok(zeros)
}
