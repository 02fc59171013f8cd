// The values that an edit carries.

ghost use Rattle.std.specs.Prelude.{◌≡◌};
ghost use Rattle.dgn_drawing.specs.Values.{IsShift};
ghost use Rattle.edit_ops.specs.Applying.{IsEdit};
ghost use Rattle.edit_ops.specs.Fenced.{IsFenceEdit};

use dgn_drawing::{Edit, FenceEdit, Shift, SymbChange};

/// The values of a displacement are such as its type keeps. It does nothing.
pub fn is_shift(by: &Shift)
    ensures { IsShift by.now }
{
    let _axes = by.axes;
}

/// A second value of the displacement `by`.
pub fn same_shift(by: &Shift) -> Shift
    ensures { result ≡ by.now }
{
    Shift {
        axes: by.axes,
        by: by.by,
    }
}

/// A second value of a change of the look.
pub fn same_look(change: &SymbChange) -> SymbChange
    ensures { result ≡ change.now }
{
    SymbChange {
        color: change.color,
        weight: change.weight,
        style: change.style,
    }
}

/// The values of an edit are such as its type keeps. It does nothing.
pub fn is_edit(edit: &Edit)
    ensures { IsEdit edit.now }
{
    match edit {
        Edit::Move { by, .. } | Edit::Copy { by, .. } => is_shift(by),
        Edit::Sym { change, .. } => {
            let _color = change.color;
        }
        Edit::Delete { .. } => {}
        Edit::Append(new) => {
            let _level = new.level;
        }
    }
}

/// The values of an edit of several roots are such as its type keeps. It does nothing.
pub fn is_fence_edit(edit: &FenceEdit)
    ensures { IsFenceEdit edit.now }
{
    match edit {
        FenceEdit::Move(by) | FenceEdit::Copy(by) => is_shift(by),
        FenceEdit::Sym(change) => {
            let _color = change.color;
        }
        FenceEdit::Delete => {}
    }
}
