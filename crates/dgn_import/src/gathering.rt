ghost use Rattle.std.specs.Prelude.{◌≡◌, ◌<◌, length, option_map, IfOk, IfSome, IsErrOf, IsTrue};
ghost use Rattle.dgn_drawing.specs.Nesting.{flat};
ghost use Rattle.dgn_drawing.specs.Spelling.{spelling};
ghost use Rattle.elem_index.specs.Design.{elements};
ghost use Rattle.dgn_drawing.specs.Values.{IsShift};
ghost use Rattle.edit_ops.specs.Copying.{AddsUnless};
ghost use Rattle.dgn_import.specs.Seconds.{value_of, IsOpened};
ghost use Rattle.dgn_import.specs.Gathering.{AreTrees, fits, gathered, gathered_in, gathered_trees, import_tree, import_cause};
ghost use Rattle.dgn_import.specs.Answers.{TellsGathering, IsOpenToGather};

use crate::gathered::Gathered;
use crate::import_fault::ImportFault;
use crate::second::Second;
use crate::taking::is_taken;
use dgn_drawing::Shift;
use edit_ops::{EditFault, copy_tree, part_bytes, part_end};
use level_view::Drawing;
use patch_bytes::ByteList;
use std::alloc::Global;
use std::mem;

/// Gathers the trees of a second drawing that can stand behind a drawing of dimension `dim`: those of its roots, in
/// file order, that aren't element 0, aren't silent and aren't marked deleted, and whose trees hold no broken number.
/// Without `by` they are as they stand, and with it their live elements are displaced by so much
/// (`edit_ops::copy_tree`).
///
/// Bad comes exactly where the second file doesn't open; else Dimension exactly where it has another dimension than
/// `dim`, or `by` is given for other axes; else Refused exactly where the displacement of a tree is refused, with the
/// first cause of the first such tree, whose number counts in the second file. Memory says that there was none for
/// the trees of a file that is neither Bad nor of another Dimension.
///
/// It takes the time of the second drawing.
pub fn gather(
    alloc: Global,
    dim: u8,
    second: &Second,
    by: Option<&Shift>,
) -> Result<Gathered, ImportFault>
    requires sound { IsOpened second.now }
    ensures gathered { TellsGathering (gathered dim (value_of second.now) (option_map (λ b. b.now) by.entry)) result }
    ensures trees { IfOk result (λ g. AreTrees dim g.bytes) }
    ensures memory { IsErrOf result ImportFault.Memory
        → IsOpenToGather dim (value_of second.now) (option_map (λ b. b.now) by.entry) }
{
    match second {
        Second::Good(design, nest) => gather_from(alloc, dim, &Drawing::new(design, nest), by),
        Second::Bad(fault) => Err(ImportFault::Bad(*fault)),
    }
}

// What is gathered of a second drawing that opens, or the first cause against it.
fn gather_from(
    alloc: Global,
    dim: u8,
    d: &Drawing<'_>,
    by: Option<&Shift>,
) -> Result<Gathered, ImportFault>
    ensures gathered { TellsGathering (gathered_in dim d.now.dim (elements d.now) (option_map (λ b. b.now) by.entry)) result }
    ensures trees { IfOk result (λ g. AreTrees dim g.bytes) }
    ensures memory { IsErrOf result ImportFault.Memory
        → IsTrue (fits dim d.now.dim (option_map (λ b. b.now) by.entry)) }
{
    d.is_whole();
    if !fits(dim, d.dim(), by) {
        return Err(ImportFault::Dimension);
    }
    taken_trees(alloc, d, by)
}

// Whether a drawing of dimension `own` has that of the other, and the displacement is given for its axes.
fn fits(dim: u8, own: u8, by: Option<&Shift>) -> bool
    ensures fits { result ≡ fits dim own (option_map (λ b. b.now) by.entry) }
    ensures kept { IfSome (option_map (λ b. b.now) by.entry) IsShift }
{
    match by {
        None => own == dim,
        Some(by) => own == dim && by.axes == dim,
    }
}

// The trees that are taken, as they stand or displaced; or the first cause of the first of them whose displacement is
// refused. Nothing is kept of a tree but its bytes; what the copy of one of several elements takes is given back before
// the next.
fn taken_trees(alloc: Global, d: &Drawing<'_>, by: Option<&Shift>) -> Result<Gathered, ImportFault>
    ensures { TellsGathering (gathered_trees d.now.dim (elements d.now) (option_map (λ b. b.now) by.entry)) result }
{
    d.is_whole();
    let mut room = Vec::new(alloc);
    room.reserve(d.body().len())?;
    let mut bytes = ByteList::from_vec(room);
    let mut trees = 0;
    let count = d.count();
    let mut root = 0;
    'roots: while root < count {
        if is_taken(d, root) {
            push_tree(alloc, d, root, by, &mut bytes)?;
            trees += 1;
        }
        root = part_end(d, root);
    }
    Ok(Gathered { bytes, trees })
}

// Adds the bytes of the tree of root n, as it stands or displaced, behind the others; or the first cause for which its
// displacement is refused.
fn push_tree(
    alloc: Global,
    d: &Drawing<'_>,
    n: u32,
    by: Option<&Shift>,
    out: &mut ByteList,
) -> Result<(), EditFault>
    requires known { n < length (elements d.now) }
    ensures { AddsUnless (import_cause d.now.dim (elements d.now) (option_map (λ b. b.now) by.entry) n)
        (spelling (flat (import_tree d.now.dim (elements d.now) (option_map (λ b. b.now) by.entry) n))) result out.old out.new }
{
    match by {
        None => {
            let mut bytes = mem::replace(out, ByteList::new(alloc)).into_vec();
            bytes.extend_from_slice(part_bytes(d, n))?;
            *out = ByteList::from_vec(bytes);
        }
        Some(by) => copy_tree(alloc, d, n, by, out)?,
    }
    Ok(())
}
