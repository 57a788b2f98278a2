//! What a session keeps between two lines.
ghost use Rattle.std.specs.Prelude.{◌≡◌};
ghost use Rattle.workspace.specs.KeptSessions.{IsSession, KeepsSoundLibrary, state_of};
ghost use Rattle.workspace.specs.States.{first_state};

use ext_cache::Cache;
use ext_cache::cell_library::Library;
use ext_model::CellKey;
use library_answers::undo_log::Log;

/// A library, the current one of its cells, the records that were made of its cells, and the edits that can be undone and redone.
#[derive(Drop)]
pub struct Edited {
    pub library: Library,
    pub current: Option<CellKey>,
    pub cache: Cache,
    pub log: Log,
}

/// What a session keeps between two lines.
#[derive(Drop)]
pub struct LayoutSession {
    /// What is edited, once a technology was read.
    pub edited: Option<Edited>,
}

/// The session at the start of a script: without a technology.
pub fn new_session() -> LayoutSession
    ensures state { state_of result ≡ first_state }
    ensures sound { IsSession result }
    ensures library { KeepsSoundLibrary result }
{
    LayoutSession { edited: None }
}

impl LayoutSession {
    /// What holds of the library that is kept.
    pub fn sound_library(&self)
        ensures { KeepsSoundLibrary self.now }
    {
        if let Some(edited) = &self.edited {
            edited.library.sound_view();
        }
    }
}
