// Putting the entries of a patch file on the elements of a design file, in place.

ghost use Rattle.std.specs.Prelude.{◌≤◌, ◌<◌, ◌+◌, ◌^◌, [], ◌∷◌, length, OnOk};
ghost use Rattle.patch_file.specs.PatchView.{packed_of, all_packed};
ghost use Rattle.dgn_tool.specs.Applied.{put_from, Puts};

use crate::put_end::PutEnd;
use dgn_drawing::MOST_DESIGN;
use patch_file::{PatchEntry, apply_entry, stands};

// Puts an entry on a body where it stands there, and the body keeps the limit with so many bytes behind it.
fn put_entry(body: &mut Vec<u8>, tail: usize, entry: &PatchEntry, number: u32) -> Result<(), PutEnd>
    requires { length body.old.items + tail ≤ MOST_DESIGN }
    ensures put { Puts result (put_from tail number body.old.items (packed_of entry.now ∷ [])) body.new.items }
    ensures bounded { OnOk result (length body.new.items + tail ≤ MOST_DESIGN) }
{
    if !stands(body, entry) {
        return Err(PutEnd::Refused { number });
    }
    if entry.append.len() > MOST_DESIGN - tail - body.len() {
        return Err(PutEnd::TooLong);
    }
    match apply_entry(body, entry) {
        Ok(()) => Ok(()),
        Err(_) => Err(PutEnd::Memory),
    }
}

/// Puts the entries on a body in order, as far as each stands on what those before it made, and that keeps the limit.
pub(crate) fn put_entries(
    body: &mut Vec<u8>,
    tail: usize,
    entries: &[PatchEntry],
) -> Result<(), PutEnd>
    requires counted { length entries.now < 2 ^ 32 }
    requires bounded { length body.old.items + tail ≤ MOST_DESIGN }
    ensures put { Puts result (put_from tail 1 body.old.items (all_packed entries.now)) body.new.items }
    ensures bounded { OnOk result (length body.new.items + tail ≤ MOST_DESIGN) }
{
    let mut number = 0;
    'entries: for entry in entries {
        number += 1;
        put_entry(body, tail, entry, number)?;
    }
    Ok(())
}
