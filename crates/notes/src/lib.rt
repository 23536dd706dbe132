// What a note and a recompaction write, and their laws.
#![tactic(auto)]

ghost use Rattle.notes.specs.Laws.{Accepted, NoteAdds, NoteReadsBack, NotesReadBack, NotingKeeps, CutAnywhere, MendingKeeps, LatestNoted, AgreeGoesOn, Compaction};

mod given;
mod lookup;
mod same;

pub use given::Given;
pub use lookup::find;
pub use same::{is_unchanged, name_of};

// The laws of noting.
pub fn laws_of_noting()
    ensures accepted { Accepted }
    ensures adds { NoteAdds }
    ensures read_back { NoteReadsBack }
    ensures all_read_back { NotesReadBack }
    ensures keeps { NotingKeeps }
    ensures cut { CutAnywhere }
    ensures mended { MendingKeeps }
    ensures latest { LatestNoted }
    ensures agree { AgreeGoesOn }
{}

// The laws of recompacting.
pub fn laws_of_recompacting()
    ensures { Compaction }
{}
