//! Laws of queues that grow, as the contracts of functions that do nothing. They hold of the schedulers' definitions.

ghost use Rattle.std.specs.Prelude.{◌≡◌, ℕ, ◌<◌, ◌≤◌};
ghost use Rattle.pointer_state.specs.Places.{Places, AreAtPorts};
ghost use Rattle.eslip_rounds.specs.Slots.{AreMoved};
ghost use Rattle.firm_rounds.specs.Slots.{AreMovedByFirm};
ghost use Rattle.rrm_rounds.specs.Slots.{AreMovedByRrm};
ghost use Rattle.scheduler_laws.specs.FedSlots.{IsAtLineRate};
ghost use Rattle.scheduler_laws.specs.Growth.{growing, IsOfLoad, GrowsForEver};

/// The traffic `growing n m` is at line rate, and periodic: in each period of `m * (2 * n - 1)` slots at most `m * n + 1`
/// cells come to an input or for an output.
pub fn growing_traffic_has_its_load()
    ensures at_line_rate { (n m : ℕ) → 2 ≤ n → 0 < m → IsAtLineRate n (growing n m) }
    ensures load { (n m : ℕ) → 2 ≤ n → 0 < m → IsOfLoad n m (growing n m) }
{}

/// Under it a queue of iSLIP grows for ever, for 2 to 64 ports and any number of rounds: from any pointers at ports, as
/// from all at port 0, each period leaves one cell more in queue (0, 0). So it does under FIRM
/// and under round-robin matching.
pub fn a_queue_grows_for_ever()
    ensures by_islip { (n m rounds : ℕ) (places : Places) → 2 ≤ n → 0 < m → 0 < rounds → AreAtPorts places → places.ports ≡ n
        → GrowsForEver AreMoved n m rounds places }
    ensures by_firm { (n m rounds : ℕ) (places : Places) → 2 ≤ n → 0 < m → 0 < rounds → AreAtPorts places → places.ports ≡ n
        → GrowsForEver AreMovedByFirm n m rounds places }
    ensures by_rrm { (n m rounds : ℕ) (places : Places) → 2 ≤ n → 0 < m → 0 < rounds → AreAtPorts places → places.ports ≡ n
        → GrowsForEver AreMovedByRrm n m rounds places }
{}
