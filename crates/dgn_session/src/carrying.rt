// An edit is carried out on the parts of a session.

ghost use Rattle.std.specs.Prelude.{◌≡◌, OnOk, OnErr};
ghost use Rattle.dgn_session.specs.SessionParts.{IsSoundPlan, plan_of, value_after};

use crate::session::Session;
use patch_bytes::PatchList;
use std::alloc::AllocError;

impl Session {
    // Takes the memory that patches and bytes to append want, and carries them out. Where there is no memory, the session
    // is as before.
    pub(crate) fn carry_out(&mut self, patches: PatchList, append: &[u8]) -> Result<(), AllocError>
        requires { IsSoundPlan self.old.dim self.old.tail self.old.body (plan_of patches append.now) }
        ensures carried { OnOk result (self.new ≡ value_after patches append.now self.old) }
        ensures kept { OnErr result (self.new ≡ self.old) }
    {
        crate::carry_out(
            self.alloc,
            &mut self.design,
            &mut self.nest,
            &mut self.log,
            patches,
            append,
        )
    }
}
