ghost use Rattle.std.specs.Prelude.{◌≡◌, ◌++◌, ℕ, List, Option, option_map, OnOk, IsTrue};
ghost use Rattle.dgn_desk.specs.Content.{Content, filed, HasTarget};
ghost use Rattle.dgn_desk.specs.Desk.{Counts, SaysAll, FilesAll, AddsAll, StaysWilling, DoesNotFail};
ghost use Rattle.dgn_desk.specs.Seen.{DeskWrites};

use crate::desk::Desk;
use crate::stop::Stop;

/// Says all the bytes: the desk is handed all that is left each time, and goes on behind a short call.
/// Where it stops, some first part of them was said. A willing desk doesn't fail, and stays willing.
pub fn say_all<D: Desk>(desk: &mut D, bytes: &[u8]) -> Result<(), Stop>
    ensures { DeskWrites D.Desk result (SaysAll result bytes.now) desk.old desk.new }
{
    let mut rest = bytes;
    'pieces: while !rest.is_empty() {
        let count = desk.say(rest)?;
        let (_, unsaid) = rest.split_at(count);
        rest = unsaid;
    }
    Ok(())
}

/// Makes the named file hold the body, then the tail, and then what fills it. The desk is handed all that
/// is left of the body each time, then of the tail, then of what fills it, and goes on behind a short
/// call. Where it stops, the file wasn't begun and nothing changed, or it holds some first part of these
/// bytes. A willing desk doesn't fail, and stays willing.
pub fn write_file<D: Desk>(
    desk: &mut D,
    name: &str,
    body: &[u8],
    tail: &[u8],
    filling: &[u8],
) -> Result<(), Stop>
    ensures { DeskWrites D.Desk result (FilesAll result name.now (body.now ++ (tail.now ++ filling.now))) desk.old desk.new }
{
    desk.begin_write(name)?;
    write_more(desk, body)?;
    write_both(desk, tail, filling)
}

// Appends the first bytes and then the others to the file that was begun.
fn write_both<D: Desk>(desk: &mut D, first: &[u8], second: &[u8]) -> Result<(), Stop>
    ensures cause { Counts (D.write_faults desk.old) (D.write_faults desk.new) result }
    ensures other { D.read_faults desk.new ≡ D.read_faults desk.old }
    ensures changes { (name so_far : List ℕ) (c : Option Content) → D.content desk.old ≡ option_map (filed name so_far) c
        → AddsAll result name so_far (first.now ++ second.now) c (D.content desk.new) }
    ensures stays_willing { StaysWilling (D.willing desk.old) (D.willing desk.new) }
    ensures never_fails { IsTrue (D.willing desk.old) → HasTarget (D.content desk.old) → DoesNotFail result }
{
    write_more(desk, first)?;
    write_more(desk, second)
}

// Appends all the bytes to the file that was begun, whose bytes so far are any.
fn write_more<D: Desk>(desk: &mut D, bytes: &[u8]) -> Result<(), Stop>
    ensures cause { Counts (D.write_faults desk.old) (D.write_faults desk.new) result }
    ensures other { D.read_faults desk.new ≡ D.read_faults desk.old }
    ensures changes { (name so_far : List ℕ) (c : Option Content) → D.content desk.old ≡ option_map (filed name so_far) c
        → AddsAll result name so_far bytes.now c (D.content desk.new) }
    ensures stays_willing { StaysWilling (D.willing desk.old) (D.willing desk.new) }
    ensures never_fails { IsTrue (D.willing desk.old) → HasTarget (D.content desk.old) → DoesNotFail result }
    ensures target { OnOk result (HasTarget (D.content desk.old) → HasTarget (D.content desk.new)) }
{
    let mut rest = bytes;
    'pieces: while !rest.is_empty() {
        let count = desk.write(rest)?;
        let (_, unwritten) = rest.split_at(count);
        rest = unwritten;
    }
    Ok(())
}
