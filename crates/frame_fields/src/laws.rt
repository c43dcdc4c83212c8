//! Laws of a frame's fields: each is the contract of a call that does nothing.

ghost use Rattle.std.specs.Prelude.{◌≡◌, ◌↔◌, ℕ, List, Some};
ghost use Rattle.pcap_records.specs.declared.link.Link.{Link};
ghost use Rattle.frame_fields.specs.Destination.{destination_of, HasDestination};

/// A frame's destination is told exactly where the frame has one, so it has one at most.
pub fn destination_is_exact()
    ensures { (link : Link) (frame : List ℕ) (address : ℕ)
        → (destination_of link frame ≡ Some address) ↔ HasDestination link frame address }
{}
