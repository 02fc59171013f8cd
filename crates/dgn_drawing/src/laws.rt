//! What holds of all elements. Each call does nothing; its contract is the law.

ghost use Rattle.dgn_drawing.specs.Laws.{OneSpellingOneRecord, NoSpellingBeginsAnother, RecordsSitAtTheirPlaces, BytesAreRecords, RecordsAreRead};
ghost use Rattle.dgn_drawing.specs.Laws.{BodyEndsAgree, LooksAreTwoBytes, SilentRecordsStay, SpotsSitAtTheNumbers, DisplacementsAreSums, MarksAreOneByte};
ghost use Rattle.dgn_drawing.specs.Laws.{WideningsAreWider, FreedIsOneByte, MadeElementsAreWellFormed};

/// One spelling, one record: in one dimension two well formed records with one spelling are equal,
/// and no spelling is a proper prefix of another.
pub fn one_spelling_one_record()
    ensures unique { OneSpellingOneRecord }
    ensures no_prefix { NoSpellingBeginsAnother }
{}

/// Records sit at their places: level, bits, type, numbers, words, points and characters of a well
/// formed record are what the fields of the format's tables hold in its spelling. For the classes
/// vertices, words and counted the spots are exactly the places of the record's points and of its range
/// numbers on the file's axes.
pub fn records_sit_at_their_places()
    ensures fields { RecordsSitAtTheirPlaces }
    ensures spots { SpotsSitAtTheNumbers }
{}

/// Bytes and records are the same thing: bytes without a fault spell the record that is read from
/// them, and the spelling of a record is bytes without a fault from which that record is read.
pub fn bytes_are_records()
    ensures spelled { BytesAreRecords }
    ensures read { RecordsAreRead }
{}

/// Where the body of an element ends, by its type (`dgn_layout::body_end`), is where the crates that read the pieces of a
/// body say: behind its points, its characters or its origin.
pub fn body_ends_agree()
    ensures { BodyEndsAgree }
{}

/// A look is two bytes: another colour, weight or style is written at byte 34 and leaves every other
/// byte of the element, which stays one without a fault. A silent element has no look, and stays.
pub fn looks_are_two_bytes()
    ensures shown { LooksAreTwoBytes }
    ensures silent { SilentRecordsStay }
{}

/// Displacements are sums: a record of the classes vertices, words and counted that stays on the design
/// plane is displaced by the sums put at its spots. It stays well formed, as large, and nests as it did.
pub fn displacements_are_sums()
    ensures { DisplacementsAreSums }
{}

/// A mark is one byte: in a record of any type but 127 the deleted bit is written at byte 1 and leaves
/// every other byte of the element. It stays well formed, as large, and nests as it did.
pub fn marks_are_one_byte()
    ensures { MarksAreOneByte }
{}

/// Widenings are wider: the range of a shown record that is widened by another range is the wider numbers
/// put at the range spots, and every other byte of the element stays. It stays well formed, as large, and
/// nests as it did.
pub fn widenings_are_wider()
    ensures { WideningsAreWider }
{}

/// Freed is one byte: an element without bit C is the element with byte 0 written anew. It stays well
/// formed and as large, and nests as one that belongs to no header before it.
pub fn freed_is_one_byte()
    ensures { FreedIsOneByte }
{}

/// Made elements are well formed: an element that is made of what the type of an appended one keeps is well
/// formed in its own dimension, and as large as the format's tables say.
pub fn made_elements_are_well_formed()
    ensures { MadeElementsAreWellFormed }
{}
