ghost use Rattle.std.specs.Prelude.{◌≡◌, ◌+◌, [], ◌∷◌, ◌++◌, length, None, IfErr, IsErrOf, OnOk, OnErr};
ghost use Rattle.dgn_drawing.specs.Opening.{elements_of};
ghost use Rattle.elem_index.specs.Design.{IsWhole};
ghost use Rattle.edit_ops.specs.Causes.{too_long};
ghost use Rattle.edit_ops.specs.Copying.{IsStopped};
ghost use Rattle.dgn_import.specs.Gathering.{AreTrees};
ghost use Rattle.dgn_session.specs.State.{state_of, value_with};
ghost use Rattle.dgn_session.specs.Imported.{imported, import_entry};

use crate::session::Session;
use dgn_drawing::MOST_DESIGN;
use edit_ops::{Cause, EditFault};
use elem_index::Design;
use patch_bytes::PatchList;

// A file with so many bytes more would be too long.
fn growth_cause(d: &Design, bytes: usize) -> Option<Cause>
    requires { IsWhole d.now }
    ensures { result ≡ too_long (length d.now.body.items + length d.now.tail.items + bytes) }
{
    if bytes <= MOST_DESIGN - (d.body.len() + d.tail.len()) {
        None
    } else {
        Some(Cause::TooLong)
    }
}

impl Session {
    /// Appends trees: the bytes of well formed elements of the drawing's dimension, of which the first, if there is one,
    /// has no bit C (`dgn_import::gather`). It is one edit for an undo, also where there is no tree, and its entry has no
    /// patch.
    ///
    /// Refused comes with TooLong, exactly where body, tail and the bytes are together more than `MOST_DESIGN` bytes,
    /// and with no other cause. Memory says that there was none for it, of bytes that aren't too long. The session is then
    /// as before.
    pub fn append_trees(&mut self, bytes: &[u8]) -> Result<(), EditFault>
        requires trees { AreTrees self.old.dim bytes.now }
        ensures done { OnOk result
            (state_of self.new ≡ imported (elements_of self.old.dim bytes.now) (state_of self.old)) }
        ensures value { OnOk result (self.new ≡ value_with (self.old.body ++ bytes.now)
            (self.old.entries ++ import_entry (state_of self.old).top ∷ []) self.old) }
        ensures accepted { OnOk result
            (too_long (length self.old.body + length self.old.tail + length bytes.now) ≡ None) }
        ensures refused { IfErr result
            (IsStopped (too_long (length self.old.body + length self.old.tail + length bytes.now))) }
        ensures memory { IsErrOf result EditFault.Memory
            → too_long (length self.old.body + length self.old.tail + length bytes.now) ≡ None }
        ensures kept { OnErr result (self.new ≡ self.old) }
    {
        if let Some(cause) = growth_cause(&self.design, bytes.len()) {
            return Err(EditFault::Refused(cause));
        }
        let patches = PatchList::new(self.alloc);
        self.carry_out(patches, bytes)?;
        Ok(())
    }
}
