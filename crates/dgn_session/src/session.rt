ghost use Rattle.std.specs.Prelude.{◌≡◌, ◌↔◌, ◌<◌, [], ◌∷◌, ◌++◌, length, map, option_map, Some, None, Err, IfOk, IfErr, IfSome, IsErr, IsErrOf, OnOk, OnErr};
ghost use Rattle.undo_log.specs.Entries.{IsUndone};
ghost use Rattle.dgn_drawing.specs.Rows.{row_of};
ghost use Rattle.dgn_drawing.specs.Spelling.{spelling};
ghost use Rattle.dgn_drawing.specs.Shown.{shown};
ghost use Rattle.elem_index.specs.Design.{elements, IsWhole};
ghost use Rattle.edit_ops.specs.Applying.{Done, IsEdit};
ghost use Rattle.edit_ops.specs.Causes.{target_of};
ghost use Rattle.edit_ops.specs.Fenced.{IsFenceEdit};
ghost use Rattle.edit_ops.specs.Laws.{ChangesItsFields};
ghost use Rattle.edit_ops.specs.FenceLaws.{ChangesFencedFields};
ghost use Rattle.edit_ops.specs.Planned.{IsRefused};
ghost use Rattle.dgn_session.specs.State.{SessionValue, state_of, first_state, edit_applied, after_edit};
ghost use Rattle.dgn_session.specs.State.{after_undo, with_mask, entry, value_with, value_with_mask};
ghost use Rattle.dgn_session.specs.State.{selection, fence_applied, with_fence, fence_entry, value_with_fence};
ghost use Rattle.dgn_session.specs.Answers.{IsDoneToAll, IsFenceRefused};
ghost use Rattle.dgn_session.specs.Kept.{IsKept};
ghost use Rattle.dgn_session.specs.SessionParts.{value_of, first_value, IsDesignOf};
ghost use Rattle.dgn_session.specs.Laws.{IsSessionValue};

use crate::fence_edit_fault::FenceEditFault;
use crate::nothing::Nothing;
use crate::select_fault::SelectFault;
use crate::{last_len, select, take_back};
use dgn_drawing::types::Item;
use dgn_drawing::{Edit, FenceEdit, Mask, Mode};
use dgn_fence::types::Fence;
use edit_ops::{EditFault, plan, plan_all};
use elem_index::Design;
use level_view::{Drawing, count_shown, nest_design, show};
use nest_tree::types::Nest;
use std::alloc::{AllocError, Global};
use std::marker::Model;
use undo_log::Log;

/// A drawing that is edited: the design, its nesting, what each edit wrote over, the levels that are shown, and the fence
/// that is set, if one is.
///
/// A contract sees its value, `SessionValue`, and by it the state of the session machine that it stands for, `state_of`.
#[derive(Drop)]
pub struct Session {
    // Where an edit finds memory.
    pub(crate) alloc: Global,
    // The drawing as it is now.
    pub(crate) design: Design,
    // The trees of its elements.
    pub(crate) nest: Nest,
    // What leads back to each drawing before.
    pub(crate) log: Log,
    // Which levels are shown.
    pub(crate) mask: Mask,
    // By what trees are chosen.
    pub(crate) fence: Option<Fence>,
}

impl Model for Session {
    ghost Value = { SessionValue };

    ghost view = { λ s. value_of s.design s.log s.mask s.fence };

    ghost invariant = { λ s. IsKept s.design s.nest s.log };
}

impl Session {
    /// Begins a session on the design `d`, with all levels shown, no fence and nothing to undo. An error says that there
    /// was no memory.
    pub fn start(alloc: Global, d: Design) -> Result<Session, AllocError>
        requires { IsWhole d }
        ensures value { IfOk result (λ s. s ≡ first_value d) }
        ensures begun { IfOk result (λ s. state_of s ≡ first_state d.dim (elements d) (length d.tail.items)) }
    {
        let nest = nest_design(alloc, &d)?;
        Ok(Session {
            alloc,
            design: d,
            nest,
            log: Log::new(alloc),
            mask: Mask(u64::MAX),
            fence: None,
        })
    }

    /// Makes an edit: writes its fields, puts what it appends behind the body, and adds the entry that takes it back. Its
    /// values are such as their type keeps, and no byte of the elements changes outside of its fields.
    ///
    /// Refused comes with the first cause that stands, exactly where the edit is refused (`edit_ops::plan`), and Memory
    /// where there is no memory for it, of an edit whose element, where it names one, there is. The session is then as
    /// before: all memory is taken before the first byte is written.
    pub fn edit(&mut self, e: &Edit) -> Result<(), EditFault>
        ensures done { OnOk result (state_of self.new ≡ after_edit e.now (state_of self.old)) }
        ensures accepted { OnOk result (edit_applied e.now (state_of self.old) ≡ Done (state_of self.new).top) }
        ensures value { OnOk result (self.new ≡ value_with (spelling (state_of self.new).top)
            (self.old.entries ++ entry self.old.dim (state_of self.old).top e.now ∷ []) self.old) }
        ensures within { OnOk result (IsEdit e.now) }
        ensures changed { OnOk result
            (ChangesItsFields self.old.dim (state_of self.old).top e.now (state_of self.new).top) }
        ensures refused { IfErr result (IsRefused (edit_applied e.now (state_of self.old))) }
        ensures known { IsErrOf result EditFault.Memory
            → IfSome (target_of e.now) (λ n. n < length (state_of self.old).top) }
        ensures kept { OnErr result (self.new ≡ self.old) }
    {
        let plan = plan(self.alloc, &self.drawing(), e, 0)?;
        self.carry_out(plan.patches, plan.append.as_slice())?;
        Ok(())
    }

    /// Makes an edit of all trees that the fence chooses in this mode: of each by itself, on the drawing as it was, and
    /// of all of them or of none. It is one edit for an undo, also where nothing is chosen. The answer is the number of
    /// trees. The values of the edit are such as its type keeps, and no byte of the elements changes outside of its
    /// fields.
    ///
    /// NoFence comes exactly where no fence is set, whatever else stands against the edit. Refused comes with the first
    /// cause of the first tree in file order that has one, exactly where one has; for a copy, the bytes that the trees
    /// before it append count too. Memory comes where there is no memory for it. The session is then as before: all
    /// memory is taken before the first byte is written.
    pub fn edit_fence(&mut self, mode: Mode, e: &FenceEdit) -> Result<u32, FenceEditFault>
        ensures done { IfOk result (λ count. IsDoneToAll mode e.now count (state_of self.old) (state_of self.new)) }
        ensures value { OnOk result (Some self.new ≡ option_map
            (λ ns. value_with (spelling (state_of self.new).top)
            (self.old.entries ++ fence_entry self.old.dim (state_of self.old).top e.now ns ∷ []) self.old)
            (selection mode (state_of self.old))) }
        ensures within { OnOk result (IsFenceEdit e.now) }
        ensures changed { OnOk result (IfSome (selection mode (state_of self.old))
            (λ ns. ChangesFencedFields self.old.dim (state_of self.old).top e.now ns (state_of self.new).top)) }
        ensures no_fence { (result ≡ Err FenceEditFault.NoFence) ↔ (self.old.fence ≡ None) }
        ensures refused { IfErr result (IsFenceRefused (fence_applied mode e.now (state_of self.old))) }
        ensures kept { OnErr result (self.new ≡ self.old) }
    {
        let Some(fence) = &self.fence else {
            return Err(FenceEditFault::NoFence);
        };
        let drawing = self.drawing();
        let roots = select(self.alloc, &drawing, self.mask, fence, mode)?;
        let plan = plan_all(self.alloc, &drawing, &roots, e)?;
        self.carry_out(plan.patches, plan.append.as_slice())?;
        Ok(roots.len() as u32)
    }

    /// Takes the last edit back: writes its entry back, so the exact bytes before it stand there again, and drops the
    /// entry. The levels that are shown and the fence stay. It takes no memory.
    ///
    /// Nothing comes exactly where there is no entry, and the session is then as before.
    pub fn undo(&mut self) -> Result<(), Nothing>
        ensures done { OnOk result (state_of self.new ≡ after_undo (state_of self.old)) }
        ensures back { OnOk result (IsUndone self.old.entries self.old.body self.new.entries self.new.body) }
        ensures value { OnOk result (self.new ≡ value_with self.new.body self.new.entries self.old) }
        ensures nothing { IsErr result ↔ (self.old.entries ≡ []) }
        ensures kept { OnErr result (self.new ≡ self.old) }
    {
        let Some(len) = last_len(self.log.entries()) else {
            return Err(Nothing);
        };
        take_back(&mut self.design, &mut self.nest, &mut self.log, len);
        Ok(())
    }

    /// The items that the display shows of the drawing (`level_view::show`), in file order. An error says that there was
    /// no memory.
    pub fn show(&self) -> Result<Vec<Item>, AllocError>
        ensures { IfOk result (λ found. found.items ≡ shown self.now.dim self.now.mask (state_of self.now).top) }
    {
        show(self.alloc, &self.drawing(), self.mask)
    }

    /// How many items `show` gives. No item is made for it. An error says that there was no memory.
    pub fn count_shown(&self) -> Result<usize, AllocError>
        ensures { IfOk result
            (λ count. count ≡ length (shown self.now.dim self.now.mask (state_of self.now).top)) }
    {
        count_shown(self.alloc, &self.drawing(), self.mask)
    }

    /// The numbers of the roots, in file order, whose items under the levels that are shown the fence takes in this mode
    /// (`dgn_fence`). NoFence comes exactly where no fence is set, and Memory where there is no memory.
    pub fn select(&self, mode: Mode) -> Result<Vec<u32>, SelectFault>
        ensures found { IfOk result (λ found. Some found.items ≡ selection mode (state_of self.now)) }
        ensures no_fence { (result ≡ Err SelectFault.NoFence) ↔ (self.now.fence ≡ None) }
    {
        let Some(fence) = &self.fence else {
            return Err(SelectFault::NoFence);
        };
        let found = select(self.alloc, &self.drawing(), self.mask, fence, mode)?;
        Ok(found)
    }

    /// Shows these levels from now on.
    pub fn set_mask(&mut self, m: Mask)
        ensures value { self.new ≡ value_with_mask m self.old }
        ensures state { state_of self.new ≡ with_mask m (state_of self.old) }
    {
        self.mask = m;
    }

    /// Chooses by this fence from now on.
    pub fn set_fence(&mut self, f: Fence)
        ensures value { self.new ≡ value_with_fence (Some f) self.old }
        ensures state { state_of self.new ≡ with_fence (Some f) (state_of self.old) }
    {
        self.fence = Some(f);
    }

    /// Chooses by no fence from now on.
    pub fn clear_fence(&mut self)
        ensures value { self.new ≡ value_with_fence None self.old }
        ensures state { state_of self.new ≡ with_fence None (state_of self.old) }
    {
        self.fence = None;
    }

    /// The bytes of the elements, one behind the other.
    pub fn body(&self) -> &[u8]
        ensures body { result.now ≡ self.now.body }
        ensures spelled { result.now ≡ spelling (state_of self.now).top }
    {
        &self.design.body
    }

    /// The bytes behind the elements: nothing, or bytes that begin with FF FF. No edit changes them.
    pub fn tail(&self) -> &[u8]
        ensures { result.now ≡ self.now.tail }
    {
        &self.design.tail
    }

    /// The drawing as it is now, with the trees of its elements.
    pub fn drawing(&self) -> Drawing<'_>
        ensures whole { IsWhole result }
        ensures value { IsDesignOf self.now result }
    {
        Drawing::new(&self.design, &self.nest)
    }

    /// The design as it is now.
    pub fn design(&self) -> &Design
        ensures whole { IsWhole result.now }
        ensures dim { result.now.dim ≡ self.now.dim }
        ensures body { result.now.body.items ≡ self.now.body }
        ensures tail { result.now.tail.items ≡ self.now.tail }
    {
        &self.design
    }

    /// The trees of its elements.
    pub fn nesting(&self) -> &Nest
        ensures { result.now.rows ≡ map row_of (state_of self.now).top }
    {
        &self.nest
    }

    /// What leads back to each drawing before the last edits.
    pub fn log(&self) -> &Log
        ensures entries { result.now.entries ≡ self.now.entries }
        ensures sound { IsSessionValue self.now }
    {
        &self.log
    }
}
