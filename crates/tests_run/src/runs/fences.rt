// Trees chosen by a fence.

use super::*;

// Four lines, and what each mode chooses of them: one in the fence, one on its edge, one that reaches in, one far off.
pub(super) const MODES: &[u8] = b"line 1 0 0 0 50,50 100,50
line 1 0 0 0 10,0 20,0
line 1 0 0 0 10,10 20,20
line 1 0 0 0 200,200 300,300
select inside
fence 0,0 100,0
fence 0,0 100,0 100,100 0,100
select inside
select overlap
select void
fsym inside 5 - -
fdelete void
undo
undo
undo
undo
undo
undo
";

pub(super) const MODES_SAID: &[u8] = b"ok
ok
ok
ok
refused no-fence
refused few
ok
3
selected 1
1
2
3
selected 3
4
selected 1
ok 1
ok 1
ok
ok
ok
ok
ok
ok
";

// An edit of all that the fence chooses is of each or of none; and one of nothing is taken back as any other.
pub(super) const ALL_OR_NOTHING: &[u8] = b"line 1 0 0 0 0,0 1,1
line 1 0 0 0 2,2 3,3
line 1 0 0 0 2147483646,5 2147483647,5
fmove overlap 1 0
fence -10,-10 2147483647,-10 2147483647,10 -10,10
fmove overlap 1 0
fcopy overlap 0 1
levels none
fmove overlap 1 2 3
nofence
fdelete overlap
undo
undo
undo
undo
undo
undo
";

pub(super) const ALL_OR_NOTHING_SAID: &[u8] = b"ok
ok
ok
refused no-fence
ok
refused off-plane 3
ok 3
ok
ok 0
ok
refused no-fence
ok
ok
ok
ok
ok
refused nothing
";

// Two commands: a fence of 256 corners, and one of 257.
fn fences_of_many(alloc: Global) -> Result<Vec<u8>, AllocError> {
    let mut script = Vec::new(alloc);
    for corners in [256, 257] {
        script.extend_from_slice(b"fence")?;
        for _ in 0..corners {
            script.extend_from_slice(b" 1,-2")?;
        }
        script.extend_from_slice(b"\n")?;
    }
    Ok(script)
}

// The first of these is set, and the other is not.
#[test]
fn many_corners(rt: HostRuntime) -> Result<(), Fail> {
    let alloc = rt.alloc();
    let script = fences_of_many(alloc)?;
    let out = design(alloc, 0, &[&END])?;
    let files = (design(alloc, 0, &[&END])?, script.as_slice());
    let said = b"ok\nrefused many\n".as_slice();
    let wanted = (Status::SomeRefused, said, Some(out.as_slice()));
    shows(&rt, &EDIT, files, wanted)?;
    Ok(())
}
