ghost use Rattle.std.specs.Prelude.{◌≡◌, ◌<◌, ◌≤◌, length, slice_get, IsFalse, if◌then◌else◌};
ghost use Rattle.dgn_layout.specs.Classes.{class_of, is_silent};
ghost use Rattle.elem_index.specs.Design.{elements};
ghost use Rattle.edit_ops.specs.Causes.{unwidened, unmovable, lookless, unmarkable, first_cause};
ghost use Rattle.edit_ops.specs.Asking.{cause_in, MayBeAsked, MayBeAskedOf, locked_in};
ghost use Rattle.edit_ops.specs.Written.{lives_of};

use crate::{Cause, ElementView, Test, find};
use dgn_layout::types::Class;
use dgn_layout::{END_MARK, class, is_silent};
use elem_head::properties;
use level_view::Drawing;

// The bit of an element's properties, 0x0100, that says that it is locked.
const LOCKED: u32 = 8;

/// What a test has against the first of the elements of these numbers against which it has something.
pub fn first_cause(d: &Drawing<'_>, live: &[u32], test: &Test) -> Option<Cause>
    requires asked { MayBeAsked d.now.dim test.now (lives_of (elements d.now) live.now) }
    ensures { result ≡ first_cause d.now.dim test.now (lives_of (elements d.now) live.now) }
{
    'live: for m in live {
        let cause = cause_against(d, test, *m);
        if cause.is_some() {
            return cause;
        }
    }
    None
}

// What a test has against element m.
pub fn cause_against(d: &Drawing<'_>, test: &Test, m: u32) -> Option<Cause>
    requires asked { MayBeAskedOf test.now (slice_get (elements d.now) m) }
    ensures { result ≡ cause_in d.now.dim test.now m (slice_get (elements d.now) m) }
{
    d.is_whole();
    let found = find(d, m)?;
    match test {
        Test::NotDeleted => deleted(m, found.deleted),
        Test::Unlocked => locked_at(m, found),
        Test::Widens => unwidened(m, class(found.kind)),
        Test::Moves => unmovable(m, class(found.kind)),
        Test::Looks => lookless(m, class(found.kind)),
        Test::Marks => unmarkable(m, found.kind),
        Test::StaysOnPlane(by) => {
            if found.stays_on_plane(d, by) {
                None
            } else {
                Some(Cause::OffPlane(m))
            }
        }
    }
}

// Element m is marked deleted.
fn deleted(m: u32, deleted: bool) -> Option<Cause>
    ensures { result ≡ (if deleted then Some (Cause.Deleted m) else None) }
{
    if deleted {
        Some(Cause::Deleted(m))
    } else {
        None
    }
}

// Element m, which is found, is locked.
fn locked_at(m: u32, found: ElementView) -> Option<Cause>
    requires { IsFalse (is_silent (class_of found.kind)) → 36 ≤ length found.bytes.now }
    ensures { result ≡ (if locked_in found.entry.kind found.entry.bytes.now then Some (Cause.Locked m) else None) }
{
    if !is_silent(found.kind) && (properties(found.bytes) >> LOCKED) & 1 == 1 {
        Some(Cause::Locked(m))
    } else {
        None
    }
}

// The range of header m can't be made wider, by its class.
fn unwidened(m: u32, class: Class) -> Option<Cause>
    ensures { result ≡ unwidened m class }
{
    match class {
        Class::Run => Some(Cause::Opaque(m)),
        _ => None,
    }
}

// Element m has coordinates that aren't read, by its class.
pub fn unmovable(m: u32, class: Class) -> Option<Cause>
    ensures { result ≡ unmovable m class }
{
    match class {
        Class::Floating => Some(Cause::Floating(m)),
        Class::Boxed | Class::Run | Class::Silent => Some(Cause::Opaque(m)),
        Class::Vertices | Class::Words | Class::Counted => None,
    }
}

// Element m has no look that can be changed, by its class.
fn lookless(m: u32, class: Class) -> Option<Cause>
    ensures { result ≡ lookless m class }
{
    match class {
        Class::Run | Class::Silent => Some(Cause::Opaque(m)),
        _ => None,
    }
}

// Element m can't be marked deleted, by its type.
fn unmarkable(m: u32, kind: u8) -> Option<Cause>
    ensures { result ≡ unmarkable m kind }
{
    if kind == END_MARK {
        Some(Cause::Opaque(m))
    } else {
        None
    }
}
