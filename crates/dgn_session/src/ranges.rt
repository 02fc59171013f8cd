// Stored ranges against hulls: what differs, and what a fit makes of it.

ghost use Rattle.std.specs.Prelude.{◌≡◌, ◌∷◌, ◌++◌, [], IfOk, IfErr, IsErrOf, OnOk, OnErr};
ghost use Rattle.dgn_drawing.specs.Spelling.{spelling};
ghost use Rattle.edit_ops.specs.Applying.{Done};
ghost use Rattle.edit_ops.specs.Planned.{IsRefused};
ghost use Rattle.dgn_audit.specs.Findings.{findings};
ghost use Rattle.dgn_audit.specs.Planned.{IsOpenToFit};
ghost use Rattle.dgn_session.specs.State.{state_of, value_with};
ghost use Rattle.dgn_session.specs.Fits.{fit_applied, after_fit, fit_entry, IsFit};

use crate::session::Session;
use dgn_audit::{Finding, audit, plan_fit};
use edit_ops::EditFault;
use std::alloc::AllocError;

impl Session {
    /// The elements whose stored range isn't the hull of their tree (`dgn_audit::audit`), in file order. An error says
    /// that there was no memory.
    pub fn audit(&self) -> Result<Vec<Finding>, AllocError>
        ensures { IfOk result (λ found. found.items ≡ findings self.now.dim (state_of self.now).top) }
    {
        audit(self.alloc, &self.drawing())
    }

    /// Writes the hulls of the tree that holds element `n` into the ranges of its fitted elements (`dgn_audit::plan_fit`).
    /// It is one edit for an undo, also where no element is fitted. After it no element of that tree is a finding, and the
    /// findings of all other trees are as before.
    ///
    /// Refused comes with the first cause that stands, exactly where the fit is refused: Unknown; Broken; Deleted, of the
    /// root of that tree; Locked, of the least fitted element that is locked. Memory says that there was none for it,
    /// where none of the causes but Locked stands. The session is then as before: all memory is taken before the first
    /// byte is written.
    pub fn fit(&mut self, n: u32) -> Result<(), EditFault>
        ensures done { OnOk result (state_of self.new ≡ after_fit n (state_of self.old)) }
        ensures accepted { OnOk result (fit_applied n (state_of self.old) ≡ Done (state_of self.new).top) }
        ensures value { OnOk result (self.new ≡ value_with (spelling (state_of self.new).top)
            (self.old.entries ++ fit_entry self.old.dim (state_of self.old).top n ∷ []) self.old) }
        ensures fitted { OnOk result (IsFit self.old.dim (state_of self.old).top n (state_of self.new).top) }
        ensures refused { IfErr result (IsRefused (fit_applied n (state_of self.old))) }
        ensures memory { IsErrOf result EditFault.Memory → IsOpenToFit (state_of self.old).top n }
        ensures kept { OnErr result (self.new ≡ self.old) }
    {
        let patches = plan_fit(self.alloc, &self.drawing(), n)?;
        self.carry_out(patches, &[])?;
        Ok(())
    }
}
