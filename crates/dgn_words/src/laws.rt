//! Laws over the definitions that the contracts cite. Each function does nothing; it states one law and
//! is proved.

ghost use Rattle.dgn_words.specs.Laws.{WordsAreSpelled, LongsAreSpelled, RangeLongsAreSpelled};

/// The bytes of a word, of a long and of a range number are the one list of so many bytes that reads as
/// that number: reading them gives it, and any so many bytes are those of the number that they read as.
pub fn bytes_are_the_number()
    ensures words { WordsAreSpelled }
    ensures longs { LongsAreSpelled }
    ensures range_longs { RangeLongsAreSpelled }
{}
