//! Laws over the definitions that the contracts cite. Each function does nothing; it states one law and
//! is proved.

ghost use Rattle.dgn_linkage.specs.Laws.{FollowsRules, AddsUp};

/// The linkages of data are those of the rules: none of no data, else the first by the rules, and behind
/// it the linkages of what is left.
pub fn follows_rules()
    ensures { FollowsRules }
{}

/// The linkages of data add up to it: the first stands at 0, each next one where the one before ends,
/// and the last ends where the data does. None is empty.
pub fn adds_up()
    ensures { AddsUp }
{}
