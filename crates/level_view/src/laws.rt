//! What holds of every display. The call does nothing; its contract is the law.

ghost use Rattle.level_view.specs.Laws.{DisplayIsOfTrees, RootsAreRoots};

/// The display is the items of the trees of all roots, one behind the other in file order, and each of
/// these numbers is one of which the items of a tree can be asked.
pub fn display_is_of_trees()
    ensures trees { DisplayIsOfTrees }
    ensures roots { RootsAreRoots }
{}
