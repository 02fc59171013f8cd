//! What holds of every edit. Each call does nothing; its contract is the law.

ghost use Rattle.edit_ops.specs.Laws.{EditedDrawingsOpen, EditedDrawingsFit, EditsChangeTheirFields, EditedFieldsAreApart, LiveNumbersRise};
ghost use Rattle.edit_ops.specs.Laws.{PathNumbersRise, FirstCauseIsLeast};
ghost use Rattle.edit_ops.specs.WalkLaws.{HeadersAreNumbered, PartsAreSpans, ExchangesAreLocal, FieldsRiseAsPatches, SpotsRiseAsFields};
ghost use Rattle.edit_ops.specs.RevisionLaws.{RevisedDrawingsOpen, RevisedDrawingsFit, RevisionsChangeTheirFields, RevisedFieldsAreApart};
ghost use Rattle.edit_ops.specs.FenceLaws.{FencedDrawingsOpen, FencedDrawingsFit, FenceEditsChangeTheirFields, FencedFieldsAreApart};

/// An edited drawing opens: what an edit that is done leaves opens in the same dimension, with the elements
/// that it makes and the same tail. Where its elements and the rest keep the limit of a design file before, they
/// do so after it.
pub fn an_edited_drawing_opens()
    ensures opens { EditedDrawingsOpen }
    ensures fits { EditedDrawingsFit }
{}

/// An edit changes its fields alone: each byte in no edited field stays, what is longer is whole trees
/// behind the others, and the trees are the changed ones.
pub fn an_edit_changes_its_fields_alone()
    ensures { EditsChangeTheirFields }
{}

/// Edited fields are apart: each lies in its element, no two share a byte, and they rise from the first byte of the
/// tree that holds the edit's element to that tree's end.
pub fn edited_fields_are_apart()
    ensures { EditedFieldsAreApart }
{}

/// Causes name the least element: the elements that are asked have rising numbers, and the first cause that a test
/// has against some of them is the one against the least of those against which it has one.
pub fn causes_name_the_least()
    ensures live { LiveNumbersRise }
    ensures path { PathNumbersRise }
    ensures first { FirstCauseIsLeast }
{}

/// A drawing of which several roots are edited at once opens: what such an edit that is done leaves opens in the same
/// dimension, with the elements that it makes and the same tail. Where its elements and the rest keep the limit of a
/// design file before, they do so after it.
pub fn a_fenced_drawing_opens()
    ensures opens { FencedDrawingsOpen }
    ensures fits { FencedDrawingsFit }
{}

/// An edit of several roots changes its fields alone: each byte in no edited field stays, what is longer is whole
/// trees behind the others, and the trees are those of which the chosen ones are changed.
pub fn a_fence_edit_changes_its_fields_alone()
    ensures { FenceEditsChangeTheirFields }
{}

/// The fields of an edit of several roots are apart: they rise within the elements, so no two share a byte; and those of
/// each root lie as those of an edit of that root alone, in the root's tree, and each in its element.
pub fn fenced_fields_are_apart()
    ensures { FencedFieldsAreApart }
{}

/// The walks to one element agree: the headers above it have the numbers of the numbering, its part is the elements of
/// its span, and an exchange of its part leaves the elements before and behind that span.
pub fn walks_agree()
    ensures headers { HeadersAreNumbered }
    ensures parts { PartsAreSpans }
    ensures exchanges { ExchangesAreLocal }
{}

/// Spots, fields and patches rise alike: spots of an element where their fields do, and fields where the patches do that
/// fill them.
pub fn rising_is_one_order()
    ensures fields { FieldsRiseAsPatches }
    ensures spots { SpotsRiseAsFields }
{}

/// A revised drawing opens: what a revision that is done leaves opens in the same dimension, with the elements that it makes
/// and the same tail. Where its elements and the rest keep the limit of a design file before, they do so after it.
pub fn a_revised_drawing_opens()
    ensures opens { RevisedDrawingsOpen }
    ensures fits { RevisedDrawingsFit }
{}

/// A revision changes its fields alone: each byte in none of them stays, and the trees are the changed ones, behind which
/// stands a longer text where the revised one has no room for it. Its fields rise within the elements, so no two share a
/// byte.
pub fn a_revision_changes_its_fields_alone()
    ensures changes { RevisionsChangeTheirFields }
    ensures apart { RevisedFieldsAreApart }
{}
