//! What holds of all logs. Each call does nothing; its contract is the law.

ghost use Rattle.undo_log.specs.Laws.{EntryRestores, BackHasTheLength, UndoTakesBack, CommitsRestore, CommitsFit, CommitPushes};

/// The entry of an edit, written back into what the edit left, gives the exact bytes before it, as
/// many as the entry says.
pub fn entries_restore()
    ensures restores { EntryRestores }
    ensures length { BackHasTheLength }
{}

/// After a commit an undo may follow, and it leaves the entries and the exact bytes before that
/// commit.
pub fn undo_takes_back()
    ensures { UndoTakesBack }
{}

/// After any number of commits the last entries, written back in turn, give the exact bytes before
/// each of them, and each of them can be written back when its turn comes. So the bodies that the
/// entries lead back to are a stack, on which a commit puts one.
pub fn commits_are_undone_in_turn()
    ensures restore { CommitsRestore }
    ensures fit { CommitsFit }
    ensures stack { CommitPushes }
{}
