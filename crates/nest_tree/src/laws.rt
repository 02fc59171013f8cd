//! What holds of all nestings. Each call does nothing; its contract is the law.

ghost use Rattle.nest_tree.specs.Laws.{ListsAreRead, NothingIsReadOfNothing, MembersAreCounted, OrderIsKept, ElementsNestByRows, ElementsAreNumberedByRows};
ghost use Rattle.nest_tree.specs.Laws.{TreesAreKnownByRows, AppendedElementsNestApart, AppendedRowsNestApart, AppendedRowsAreNumberedBehind};
ghost use Rattle.nest_tree.specs.Laws.{FirstRowsKeepTheirMarks, FewHeadersLieInEachOther, NoElementLiesDeep, HeadersGoByParents, FirstIsLeast};
ghost use Rattle.nest_tree.specs.Laws.{ElementsHaveRows};

/// Lists are read from the front: each element is a leaf or the head of a tree over some of those
/// behind it, and reading goes on behind these. The trees have the elements of the list in its order.
pub fn lists_are_read()
    ensures lists { ListsAreRead }
    ensures none { NothingIsReadOfNothing }
    ensures order { OrderIsKept }
{}

/// Members are counted: a header's members are as many of the elements behind it as all have bit C
/// and have, with the header, as many bytes as its total says; and no other number of them are.
pub fn members_are_counted()
    ensures { MembersAreCounted }
{}

/// Nesting looks at rows alone: elements nest and are numbered as their rows are, and trees whose rows
/// nest as those of their own elements do are the trees of these.
pub fn nesting_looks_at_rows_alone()
    ensures nested { ElementsNestByRows }
    ensures numbered { ElementsAreNumberedByRows }
    ensures known { TreesAreKnownByRows }
{}

/// Appended trees nest apart: if the first of the new elements, where there is one, has no bit C, the
/// trees of all are those of the old ones and then those of the new ones. So the marks of the old ones
/// stay, and stay again where the new ones are taken away.
pub fn appended_trees_nest_apart()
    ensures elements { AppendedElementsNestApart }
    ensures rows { AppendedRowsNestApart }
    ensures numbered { AppendedRowsAreNumberedBehind }
    ensures taken { FirstRowsKeepTheirMarks }
{}

/// No element lies deep: among the rows of elements without a fault at most 3277 counted headers lie in
/// each other, and no depth is more than 3278.
pub fn no_element_lies_deep()
    ensures headers { FewHeadersLieInEachOther }
    ensures depth { NoElementLiesDeep }
{}

/// The headers above an element are found by going up from parent to parent: they are those above its
/// own header, which stands before it, and then that one; above a root there are none.
pub fn headers_go_by_parents()
    ensures { HeadersGoByParents }
{}

/// The first number that passes a test is the least one, so the first broken one is the least one.
pub fn first_is_least()
    ensures { FirstIsLeast }
{}

/// Elements have rows: the row of each well formed element has at least four bytes and a type below
/// 128, the size that its class has at the least, and a total of one word. So what is said of such rows
/// is said of those of every design.
pub fn elements_have_rows()
    ensures { ElementsHaveRows }
{}
