//! What holds of all patch files and of all entries. Each call does nothing; its contract is the law.

ghost use Rattle.patch_file.specs.FieldView.{ExchangesTell};
ghost use Rattle.patch_file.specs.Laws.{SpelledIsRead, OneSpelling, ReadsByPieces, TakenGivesTheSame, AllTakenGiveTheSame, TakenIsTheEdit, EditsMayBeTaken};

use crate::Field;

/// Fields that exchange the same bytes at the same place are equal: a list of fields loses nothing
/// where a contract sees it as what they exchange.
pub fn exchanges_tell(f: Field, g: Field)
    ensures { ExchangesTell f g }
{
    let _ = (f, g);
}

/// Reading the file of entries gives these entries, so entries that have the same file are the same.
pub fn one_spelling()
    ensures read { SpelledIsRead }
    ensures same { OneSpelling }
{}

/// A file of bytes is the spelling of exactly the entries that are read of it, or has exactly one bad piece, at which reading
/// stops: those before it stand, and it is cut off or breaks its rule.
pub fn reads_by_pieces()
    ensures { ReadsByPieces }
{}

/// Applied gives the same: what is taken off a body stands on the body that the log's entry leads
/// back to, and put on that gives the exact body. So it is with all that is taken off while the
/// entries of a log are written back in turn, put on in the order of the edits.
pub fn applied_gives_the_same()
    ensures one_entry { TakenGivesTheSame }
    ensures all { AllTakenGiveTheSame }
{}

/// What is taken off the body that an edit left is what the edit wrote, over what stood there, and
/// what it appended. It can be taken off where the edit's patches rise within the body.
pub fn taken_is_the_edit()
    ensures edit { TakenIsTheEdit }
    ensures may { EditsMayBeTaken }
{}
