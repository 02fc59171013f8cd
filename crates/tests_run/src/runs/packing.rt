// Packing what a script does.

use super::*;

pub(super) const PACK: [&str; 4] = ["pack", "in", "s", "out"];

// A patch file of no edit.
pub(super) const NO_ENTRIES: &[u8] = b"DGNPAT01\x00\x00\x00\x00";

// Edits of each kind, and undos among them: six are left.
const KINDS: &[u8] =
    b"color 1 7\nmove 1 1 1\nundo\nsym 1 4 - -\ncopy 1 1 1\nfence -9,-9 900,-9 900,900 -9,900\n\
fmove inside 1 1\nfsym overlap 3 2 1\nundo\nfdelete inside\nundo\nline 1 0 0 0 0,0 1,1\ndelete 1\nundo\ndelete 2\n";

// A desk with a drawing of a line, one whose line begins elsewhere, and the script of these edits.
fn desk_of_kinds(alloc: Global) -> Result<SureDesk, AllocError> {
    let mut desk = SureDesk::new(alloc, 512);
    let other = with_bytes(design(alloc, 0, &[&LINE, &END])?, &[(1574, &[9])]);
    add_bytes(&mut desk, "in", design(alloc, 0, &[&LINE, &END])?)?;
    add_bytes(&mut desk, "other", other)?;
    add_bytes(&mut desk, "s", Vec::from_slice(alloc, KINDS)?)?;
    Ok(desk)
}

// Runs over that desk, and how each ends.
const RUNS: [(&[&str], Status); 4] = [
    (&["pack", "in", "s", "p"], Status::Done),
    (&["edit", "in", "s", "edited"], Status::Done),
    (&["apply", "in", "p", "applied"], Status::Done),
    (&["apply", "other", "p", "out"], Status::PatchRefused),
];

// The desk after those runs, each of which ends so.
fn after_runs<R: Abort + Alloc<A = Global>>(rt: &R) -> Result<SureDesk, AllocError> {
    let alloc = rt.alloc();
    let mut desk = desk_of_kinds(alloc)?;
    for (list, status) in RUNS {
        assert!(rt; ends(alloc, list, &mut desk)? == status);
    }
    Ok(desk)
}

// What is packed of the edits writes the file that `edit` writes. On the drawing whose line begins elsewhere the fourth of
// them, which moves it, is refused.
#[test]
fn packed_and_applied(rt: HostRuntime) -> Result<(), Fail> {
    let desk = after_runs(&rt)?;
    assert!(rt; desk.said().starts_with(b"entries 6\n"));
    assert!(rt; desk.said().ends_with(b"applied 6\nrefused entry 4\n"));
    assert!(rt; desk.file("applied").is_some());
    assert!(rt; desk.file("applied") == desk.file("edited"));
    assert!(rt; desk.file("out").is_none());
    Ok(())
}
