ghost use Rattle.std.specs.Prelude.{◌≡◌, ℕ, ◌≤◌, [], length, take, IfOk, OnOk, Option, Bool, IsTrue, IsSome};
ghost use Rattle.dgn_desk.specs.Content.{Content, opened, consumed, filed, written, spoken, HasFile, HasTarget};
ghost use Rattle.dgn_desk.specs.Desk.{Counts, Changes, Reads, TakesSome, StaysWilling, DoesNotFail};

use crate::stop::Stop;

/// The outside of a run: one file at a time is read, one is written, and bytes are said.
///
/// Faults of reading and of writing are counted apart, and neither count falls. What the desk holds is
/// told or not, and no call changes which. A call that stops leaves what is told as it was.
///
/// A willing desk tells what it holds, stays willing, and doesn't fail where there is what a call asks
/// for: the file that is to be read, and one that was begun to write to. It may still want memory.
///
/// A strict desk, if it tells what it holds, reads no file that isn't there.
pub trait Desk {
    ghost read_faults: { Self → ℕ };

    ghost write_faults: { Self → ℕ };

    ghost content: { Self → Option Content };

    ghost willing: { Self → Bool };

    // Of all desks of its type alike.
    ghost strict: { Bool };

    /// Begins reading the named file at its front. A name that isn't there counts as an empty file,
    /// unless the desk fails, as a strict one does.
    fn begin_read(&mut self, name: &str) -> Result<(), Stop>
        ensures cause { Counts (read_faults self.old) (read_faults self.new) result }
        ensures other { write_faults self.new ≡ write_faults self.old }
        ensures changes { Changes result (λ _. opened name.now) (content self.old) (content self.new) }
        ensures stays_willing { StaysWilling (willing self.old) (willing self.new) }
        ensures never_fails { IsTrue (willing self.old) → HasFile name.now (content self.old) → DoesNotFail result }
        ensures found { OnOk result (IsTrue strict → HasFile name.now (content self.old)) };

    /// Reads some bytes into the front of `buf` and answers how many. None, for a buffer with room,
    /// means the end of the file.
    fn read(&mut self, buf: &mut [u8]) -> Result<usize, Stop>
        ensures cause { Counts (read_faults self.old) (read_faults self.new) result }
        ensures other { write_faults self.new ≡ write_faults self.old }
        ensures within { IfOk result (λ count. count ≤ length buf.new) }
        ensures bytes { Reads result (content self.old) buf.new }
        ensures changes { Changes result consumed (content self.old) (content self.new) }
        ensures stays_willing { StaysWilling (willing self.old) (willing self.new) }
        ensures never_fails { IsTrue (willing self.old) → DoesNotFail result };

    /// Makes the named file be there and empty. Writes go to it from now on.
    fn begin_write(&mut self, name: &str) -> Result<(), Stop>
        ensures cause { Counts (write_faults self.old) (write_faults self.new) result }
        ensures other { read_faults self.new ≡ read_faults self.old }
        ensures changes { Changes result (λ _. filed name.now []) (content self.old) (content self.new) }
        ensures stays_willing { StaysWilling (willing self.old) (willing self.new) }
        ensures never_fails { IsTrue (willing self.old) → DoesNotFail result };

    /// Appends a front part of `bytes` to the file that writes go to, and answers its length: at least
    /// one byte, where there are any.
    fn write(&mut self, bytes: &[u8]) -> Result<usize, Stop>
        ensures cause { Counts (write_faults self.old) (write_faults self.new) result }
        ensures other { read_faults self.new ≡ read_faults self.old }
        ensures taken { IfOk result (TakesSome bytes.now) }
        ensures changes { Changes result (λ count. written (take count bytes.now)) (content self.old) (content self.new) }
        ensures stays_willing { StaysWilling (willing self.old) (willing self.new) }
        ensures never_fails { IsTrue (willing self.old) → HasTarget (content self.old) → DoesNotFail result };

    /// Says a front part of `bytes`, and answers its length: at least one byte, where there are any.
    fn say(&mut self, bytes: &[u8]) -> Result<usize, Stop>
        ensures cause { Counts (write_faults self.old) (write_faults self.new) result }
        ensures other { read_faults self.new ≡ read_faults self.old }
        ensures taken { IfOk result (TakesSome bytes.now) }
        ensures changes { Changes result (λ count. spoken (take count bytes.now)) (content self.old) (content self.new) }
        ensures stays_willing { StaysWilling (willing self.old) (willing self.new) }
        ensures never_fails { IsTrue (willing self.old) → DoesNotFail result };

    // A willing desk tells what it holds.
    ghost tells: { (d : Self) → IsTrue (willing d) → IsSome (content d) };
}
