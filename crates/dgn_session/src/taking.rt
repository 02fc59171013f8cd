// An edit is taken back. It takes no memory.

ghost use Rattle.std.specs.Prelude.{◌≡◌, ◌≤◌, ◌↔◌, [], length, IsNone, IfSome};
ghost use Rattle.undo_log.specs.Entries.{IsUndone};
ghost use Rattle.dgn_session.specs.Kept.{IsKept};
ghost use Rattle.dgn_session.specs.CarryingOut.{HasLast, IsCutAt};

use dgn_drawing::MOST_DESIGN;
use elem_index::Design;
use nest_tree::types::Nest;
use undo_log::{Entry, Log};

/// The length of the body before the last edit, in bytes; none exactly where there is no entry.
pub fn last_len(entries: &[Entry]) -> Option<u32>
    ensures none { IsNone result ↔ (entries.now ≡ []) }
    ensures last { IfSome result (HasLast entries.now) }
{
    match entries {
        [.., last] => Some(last.len),
        [] => None,
    }
}

// How many elements are left where those at byte `len` and behind it are cut off.
fn count_below(offsets: &[u32], len: u32) -> u32
    requires { length offsets.now ≤ MOST_DESIGN }
    ensures { IsCutAt offsets.now len result }
{
    let mut count = offsets.len();
    'back: while count > 0 {
        if offsets[count - 1] < len {
            break;
        }
        count -= 1;
    }
    count as u32
}

/// Writes the last entry back, whose length is `len` (`last_len`), drops it, and cuts offsets and nesting to the elements of
/// the body before. It takes no memory.
pub fn take_back(design: &mut Design, nest: &mut Nest, log: &mut Log, len: u32)
    requires kept { IsKept design.old nest.old log.old }
    requires last { HasLast log.old.entries len }
    ensures kept { IsKept design.new nest.new log.new }
    ensures dim { design.new.dim ≡ design.old.dim }
    ensures tail { design.new.tail.items ≡ design.old.tail.items }
    ensures undone { IsUndone log.old.entries design.old.body.items log.new.entries design.new.body.items }
{
    let count = count_below(design.offsets(), len);
    log.undo(&mut design.body);
    design.shrink(count);
    nest.shrink(count);
}
