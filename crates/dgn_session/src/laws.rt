//! What holds of all sessions. Each call does nothing; its contract is the law.

ghost use Rattle.dgn_session.specs.Laws.{EditsAreUndone, FenceEditsAreUndone, ImportsAreUndone, OpenedStay, EntriesAreCounted, EntriesLeadBack};
ghost use Rattle.dgn_session.specs.Laws.{OpenedStandsStill};
ghost use Rattle.dgn_session.specs.Fits.{FitsAreUndone, OpenedStayFitted};

/// Edits are undone: after an edit that is done, of one part or of all that a fence chooses, and after an import, an undo
/// is not refused, and gives the state before; and the opened elements stay at the bottom of the stack.
pub fn edits_are_undone()
    ensures undone { EditsAreUndone }
    ensures fenced { FenceEditsAreUndone }
    ensures imported { ImportsAreUndone }
    ensures opened { OpenedStay }
{}

/// Entries lead back: there is one list below the top for each entry, and the newest entries, written back in turn, give
/// the exact bytes of the list that stands as many below the top; all of them, those of the opened one.
pub fn entries_lead_back()
    ensures counted { EntriesAreCounted }
    ensures back { EntriesLeadBack }
{}

/// The opened stands still: each of its elements keeps its size and its offset, and each of its bytes that is in no
/// patch of an entry that is left.
pub fn the_opened_stands_still()
    ensures { OpenedStandsStill }
{}

/// Fits are undone: after a fit that is done an undo is not refused, and gives the state before; and the opened elements
/// stay at the bottom of the stack.
pub fn fits_are_undone()
    ensures undone { FitsAreUndone }
    ensures opened { OpenedStayFitted }
{}
