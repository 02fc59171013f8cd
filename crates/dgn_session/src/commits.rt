// A change is carried out, once there is memory for it.

ghost use Rattle.std.specs.Prelude.{◌≡◌, ◌≤◌, [], ◌∷◌, ◌++◌, length, OnOk, OnErr};
ghost use Rattle.patch_bytes.specs.Puts.{write};
ghost use Rattle.undo_log.specs.Entries.{entry_of};
ghost use Rattle.elem_index.specs.Design.{IsWhole};
ghost use Rattle.dgn_session.specs.Kept.{IsKept};
ghost use Rattle.dgn_session.specs.CarryingOut.{IsSpelling, ExtendsRows, IsFollowed, IsSoundChange, HasRoom};

use crate::appended::nest_appended;
use dgn_drawing::MOST_DESIGN;
use elem_index::Design;
use nest_tree::types::Nest;
use patch_bytes::PatchList;
use std::alloc::{AllocError, Global};
use undo_log::Log;

/// Writes the patches into the body, puts the bytes behind it, and adds the entry that leads back. Offsets and nesting grow
/// by the elements that these bytes spell. The bytes aren't copied anywhere else.
///
/// An error says that there was no memory for it; body, offsets, nesting and entries are then as before, since all memory is
/// taken before the first byte is written.
pub fn carry_out(
    alloc: Global,
    design: &mut Design,
    nest: &mut Nest,
    log: &mut Log,
    patches: PatchList,
    append: &[u8],
) -> Result<(), AllocError>
    requires kept { IsKept design.old nest.old log.old }
    requires sound { IsSoundChange design.old.dim design.old.tail.items design.old.body.items patches append.now }
    ensures kept { IsKept design.new nest.new log.new }
    ensures dim { design.new.dim ≡ design.old.dim }
    ensures tail { design.new.tail.items ≡ design.old.tail.items }
    ensures body { OnOk result (design.new.body.items ≡ write design.old.body.items patches ++ append.now) }
    ensures entries { OnOk result
        (log.new.entries ≡ log.old.entries ++ entry_of design.old.body.items patches ∷ []) }
    ensures same_body { OnErr result (design.new.body.items ≡ design.old.body.items) }
    ensures same_entries { OnErr result (log.new.entries ≡ log.old.entries) }
{
    let before = design.count();
    if let Err(error) = follow(alloc, design, nest, log, append) {
        nest.shrink(before);
        return Err(error);
    }
    log.commit(&mut design.body, patches, append);
    design.grow();
    Ok(())
}

// Lets the nesting follow what is to be appended, and makes room for it. All else stays as it was; where there is no
// memory, the nesting may have grown by some of it.
fn follow(
    alloc: Global,
    design: &mut Design,
    nest: &mut Nest,
    log: &mut Log,
    append: &[u8],
) -> Result<(), AllocError>
    requires kept { IsKept design.old nest.old log.old }
    requires spelled { IsSpelling append.now }
    requires bounded { length append.now ≤ MOST_DESIGN }
    ensures kept { IsKept design.new nest.old log.new }
    ensures dim { design.new.dim ≡ design.old.dim }
    ensures tail { design.new.tail.items ≡ design.old.tail.items }
    ensures body { design.new.body.items ≡ design.old.body.items }
    ensures entries { log.new.entries ≡ log.old.entries }
    ensures followed { OnOk result (IsFollowed append.now nest.old.rows nest.new.rows design.new log.new) }
    ensures begun { OnErr result (ExtendsRows nest.old.rows nest.new.rows) }
{
    let count = nest_appended(alloc, nest, append)?;
    make_room(design, log, append.len(), count)
}

// Makes room for one more entry, for so many more bytes of the body, and for what is kept of so many more elements.
// Whatever it answers, all else stays.
pub(crate) fn make_room(
    design: &mut Design,
    log: &mut Log,
    bytes: usize,
    count: u32,
) -> Result<(), AllocError>
    requires { IsWhole design.old }
    ensures whole { IsWhole design.new }
    ensures dim { design.new.dim ≡ design.old.dim }
    ensures body { design.new.body.items ≡ design.old.body.items }
    ensures tail { design.new.tail.items ≡ design.old.tail.items }
    ensures entries { log.new.entries ≡ log.old.entries }
    ensures has_room { OnOk result (HasRoom bytes count design.new log.new) }
{
    log.reserve(&mut design.body, bytes)?;
    design.reserve_index(count)
}
