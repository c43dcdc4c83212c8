ghost use Rattle.std.specs.Prelude.{◌≡◌, [], ◌∷◌, List};
ghost use base.Fml.{ftrue};
ghost use Rattle.outside.specs.Events.{Event};

use std::marker::Model;

// What the calls of this process gave and took, newest first. It is of proofs alone: it has no bytes, and
// noting a call does nothing.
//
// No memory holds it, so that it says what was given and taken is as true as each function of `noted_calls`,
// which makes the call that it notes and no other. No other proof by hand may be written over it.
#[derive(Drop)]
pub(crate) struct CallLog {
    pub(crate) ghost events: { List Event },
}

impl Model for CallLog {
    ghost also_owns = { λ _. ftrue };
}

// A call that went well, with what it gave or took.
#[derive(Clone, Copy, Drop)]
pub(crate) enum Note<'a> {
    Gave(&'a str, u64, usize, &'a [u8]),
    Began(&'a str),
    Took(&'a str, &'a [u8]),
    TookOut(&'a [u8]),
    TookErr(&'a [u8]),
}

impl CallLog {
    ghost use Rattle.outside.specs.Notes.{event_of};

    // No call yet.
    pub(crate) fn new() -> CallLog
        ensures { result.events ≡ [] }
    {
        CallLog {}
    }

    // The log with this call too.
    #[inline(always)]
    pub(crate) fn then(&self, _note: &Note<'_>) -> CallLog
        ensures { result.events ≡ event_of _note.now ∷ self.now.events }
    {
        CallLog {}
    }
}
