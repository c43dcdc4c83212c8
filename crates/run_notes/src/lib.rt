//! What is noted of a run, slot by slot as it goes, for the texts beside its captures.
#![tactic(auto)]

mod journal;
mod notes;
mod packets;
mod queues;
mod reference;
mod slot_lines;
mod texts;
mod wanted;

pub use notes::RunNotes;
pub use texts::{NotedTexts, NotesFault};
pub use wanted::Wanted;
