//! What holds of every drawing whose headers are put right. Each call does nothing; its contract is the law.

ghost use Rattle.dgn_mend.specs.Laws.{MendedElementsKeepTheirPlaces, MendedDrawingsOpen, MendingChangesHeaders, SoundTreesStay, ChangedHeadersHaveMembers};

/// Mended elements keep their places: there are as many, each is well formed, as large and of the same type, and stands where
/// it stood. A locked element stays wholly, and so does each that isn't a counted header.
pub fn mended_elements_keep_their_places()
    ensures { MendedElementsKeepTheirPlaces }
{}

/// A mended drawing opens: in the same dimension, as the mended elements, with the same tail.
pub fn a_mended_drawing_opens()
    ensures { MendedDrawingsOpen }
{}

/// Mending changes headers alone: its puts rise in the bytes, and laid over them make those of the mended elements; each
/// byte in none of their fields stays.
pub fn mending_changes_headers()
    ensures { MendingChangesHeaders }
{}

/// Sound trees stay: the elements of a tree that has no broken number stand in the mended drawing as they are, where they
/// stood.
pub fn sound_trees_stay()
    ensures { SoundTreesStay }
{}

/// Changed headers have members: behind each header that changes stand the members that its total asks for, so it is a group
/// wherever the nesting reads it together with them.
pub fn changed_headers_have_members()
    ensures { ChangedHeadersHaveMembers }
{}
