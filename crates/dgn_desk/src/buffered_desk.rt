ghost use Rattle.std.specs.Prelude.{◌≡◌, ◌≤◌, [], drop, OnOk, IsOk, IsTrue};
ghost use Rattle.arrayvec.specs.ArrayVec.{array_vec_len};
ghost use Rattle.dgn_desk.specs.Content.{filed};
ghost use Rattle.dgn_desk.specs.Desk.{Counts, Changes, StaysWilling, DoesNotFail};
ghost use Rattle.dgn_desk.specs.Holding.{with_held, held_tells};
ghost use Rattle.dgn_desk.specs.Seen.{seen, DeskWrites};

use crate::desk::Desk;
use crate::stop::Stop;
use arrayvec::ArrayVec;

/// How many bytes a buffered desk holds back at the most.
pub const MOST_HELD: usize = 8192;

/// A desk over another one, that holds back what is said, so that many short texts are said by one call of that desk.
///
/// It is handed on where there is no more room, before a file is begun to write to, and by `flush`: what was said stands
/// in the output before there is a byte of a file that is begun after it. All other calls go to the desk below at once.
/// It tells what that desk tells, and what is held back as said. It takes no memory, and says nothing more where it is
/// dropped.
#[derive(Drop)]
pub struct BufferedDesk<D: Desk + Drop> {
    desk: D,
    // What was said, and wasn't handed on yet.
    held: ArrayVec<u8, MOST_HELD>,
}

impl<D: Desk + Drop> BufferedDesk<D> {
    /// A desk over this one that holds back nothing yet.
    pub fn new(desk: D) -> BufferedDesk<D>
        ensures seen { seen ⟦<BufferedDesk<D> as Desk>⟧ result ≡ seen D.Desk desk }
        ensures below { result.desk ≡ desk }
        ensures none { result.held.items ≡ [] }
    {
        BufferedDesk {
            desk,
            held: ArrayVec::new(),
        }
    }

    /// The desk below.
    pub fn get_ref(&self) -> &D
        ensures { result.now ≡ self.now.desk }
    {
        &self.desk
    }

    /// The desk below. What is held back is dropped.
    pub fn into_inner(self) -> D
        ensures { result ≡ self.desk }
    {
        self.desk
    }

    /// Hands on all that is held back. Where the desk below stops, the rest is held back still, and what is told stays.
    pub fn flush(&mut self) -> Result<(), Stop>
        ensures kept { DeskWrites ⟦<BufferedDesk<D> as Desk>⟧ result (λ old new. new ≡ old) self.old self.new }
        ensures handed { OnOk result (D.content self.new.desk
            ≡ with_held self.old.held.items (D.content self.old.desk)) }
        ensures none { OnOk result (self.new.held.items ≡ []) }
        ensures idle { self.old.held.items ≡ [] → IsOk result × (self.new.desk ≡ self.old.desk) }
    {
        'pieces: while !self.held.is_empty() {
            let count = self.desk.say(self.held.as_slice())?;
            self.held = behind(&self.held, count);
        }
        Ok(())
    }
}

impl<D: Desk + Drop> Desk for BufferedDesk<D> {
    ghost read_faults = { λ d. D.read_faults d.desk };

    ghost write_faults = { λ d. D.write_faults d.desk };

    ghost content = { λ d. with_held d.held.items (D.content d.desk) };

    ghost willing = { λ d. D.willing d.desk };

    ghost strict = { D.strict };

    ghost tells = { λ d willing. held_tells d.held.items (D.content d.desk) (D.tells d.desk willing) };

    fn begin_read(&mut self, name: &str) -> Result<(), Stop> {
        self.desk.begin_read(name)
    }

    fn read(&mut self, buf: &mut [u8]) -> Result<usize, Stop> {
        self.desk.read(buf)
    }

    /// Hands on what is held back first. Where that stops, the file isn't begun.
    fn begin_write(&mut self, name: &str) -> Result<(), Stop>
        ensures cause { Counts (D.write_faults self.old.desk) (D.write_faults self.new.desk) result }
        ensures other { D.read_faults self.new.desk ≡ D.read_faults self.old.desk }
        ensures changes { Changes result (λ _. filed name.now []) (with_held self.old.held.items (D.content self.old.desk))
            (with_held self.new.held.items (D.content self.new.desk)) }
        ensures stays_willing { StaysWilling (D.willing self.old.desk) (D.willing self.new.desk) }
        ensures never_fails { IsTrue (D.willing self.old.desk) → DoesNotFail result }
        ensures none { OnOk result (self.new.held.items ≡ []) }
    {
        self.flush()?;
        self.desk.begin_write(name)
    }

    fn write(&mut self, bytes: &[u8]) -> Result<usize, Stop> {
        self.desk.write(bytes)
    }

    /// Holds the bytes back where there is room, if need be once what is held back was handed on. More bytes than a
    /// buffered desk holds go to the desk below at once.
    fn say(&mut self, bytes: &[u8]) -> Result<usize, Stop> {
        if bytes.len() > self.held.remaining_capacity() {
            self.flush()?;
        }
        if self.held.try_extend_from_slice(bytes).is_err() {
            return self.desk.say(bytes);
        }
        Ok(bytes.len())
    }
}

// What stands behind so many of the bytes that are held back.
fn behind(held: &ArrayVec<u8, MOST_HELD>, count: usize) -> ArrayVec<u8, MOST_HELD>
    requires { count ≤ array_vec_len held.now }
    ensures { result.items ≡ drop count held.now.items }
{
    let mut rest = ArrayVec::new();
    match rest.try_extend_from_slice(&held.as_slice()[count..]) {
        Ok(()) => rest,
        Err(_) => unreachable!(),
    }
}
