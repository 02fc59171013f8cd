// Type and bit C of an element in one byte: the type, and 128 more where it has bit C. And the total of one that counts
// its members.

ghost use Rattle.std.specs.Prelude.{◌≡◌, ◌≤◌, length, IsTrue};
ghost use Rattle.dgn_layout.specs.Classes.{class_of};
ghost use Rattle.elem_head.specs.Head.{kind_of};
ghost use Rattle.dgn_drawing.specs.Nesting.{is_counted};
ghost use Rattle.elem_index.specs.Kinds.{kind_with, SaysTotal};
ghost use Rattle.elem_index.specs.Design.{kind_at, kind_byte_at};

use dgn_drawing::is_counted;
use group_head::total;

// That byte of the element that the bytes begin with. No more than its first two bytes is read.
#[inline(always)]
pub(crate) fn kind_byte(rest: &[u8]) -> u8
    requires { 4 ≤ length rest.now }
    ensures { result ≡ kind_byte_at rest.now }
{
    rest[1] % 128 + rest[0] / 128 * 128
}

// The total of the element that the bytes begin with. Of one that doesn't count its members the type alone is read.
#[inline(always)]
pub(crate) fn total_said(rest: &[u8]) -> Option<u16>
    requires head { 4 ≤ length rest.now }
    requires total { IsTrue (is_counted (class_of (kind_of rest.now))) → 40 ≤ length rest.now }
    ensures kind { kind_with (kind_byte_at rest.now) result ≡ kind_at rest.now }
    ensures says { SaysTotal (kind_byte_at rest.now) result }
{
    if is_counted(rest[1] % 128) {
        total(rest)
    } else {
        None
    }
}
