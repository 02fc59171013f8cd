//! A law over the definitions that the contracts cite. The function does nothing; it states the law and
//! is proved.

ghost use Rattle.edit_script.specs.Laws.{FirstDecides};

/// A script has the commands of its lines in their order exactly where every line is read. Otherwise its
/// answer is the first bad line, by number.
pub fn first_fault_decides()
    ensures { FirstDecides }
{}
