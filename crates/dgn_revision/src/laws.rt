//! What holds of all revised elements. Each call does nothing; its contract is the law.

ghost use Rattle.dgn_revision.specs.Laws.{LevelsAreOneByte, LocksAreOneByte, UnmarkedIsOneByte, NamesAreTwoWords, TextsKeepTheirRoom, LongerTextsAreTexts, VerticesAreNumbers};

/// Another level is one byte: an element that isn't marked deleted gets it by byte 0, and leaves every other byte. It stays
/// well formed, as large, and nests as it did.
pub fn levels_are_one_byte()
    ensures { LevelsAreOneByte }
{}

/// A lock is one byte: it is set or cleared by byte 33, and every other byte of the element stays. A silent element stays as
/// it is.
pub fn locks_are_one_byte()
    ensures { LocksAreOneByte }
{}

/// A deletion is taken back by one byte: the mark is cleared by byte 1, and every other byte of the element stays.
pub fn unmarked_is_one_byte()
    ensures { UnmarkedIsOneByte }
{}

/// A name is two words: it is put at bytes 38 and 40 of a cell, and every other byte of the cell stays.
pub fn names_are_two_words()
    ensures { NamesAreTwoWords }
{}

/// A text keeps its room: characters that it has room for are put from its first one on and counted anew, and every other byte
/// stays, attribute data with them.
pub fn texts_keep_their_room()
    ensures { TextsKeepTheirRoom }
{}

/// Longer texts are texts: the text that is made from one that has no room for its characters is well formed where its size
/// can be said, as large as its characters and attribute data need, and has the attribute data of the other.
pub fn longer_texts_are_texts()
    ensures { LongerTextsAreTexts }
{}

/// Vertices are numbers: a point is put for a vertex by its numbers in the fields of that point, and of the other end of a
/// closed shape, and by the wider numbers in the fields of the range; every other byte stays.
pub fn vertices_are_numbers()
    ensures { VerticesAreNumbers }
{}
