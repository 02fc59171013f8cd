ghost use Rattle.std.specs.Prelude.{◌≡◌, ◌+◌, ◌<◌, ◌≤◌, ◌^◌, length, vec_len, IfOk, IfSome, IsErrOf, IsTrue};
ghost use Rattle.dgn_desk.specs.declared.reading.ReadEnd.TheVariants.{Memory};
ghost use Rattle.dgn_desk.specs.Content.{bytes_of, consumed, OnlyLeftDiffers, HasFile};
ghost use Rattle.dgn_desk.specs.Desk.{Counts, Changes, Reads, ReadCounts, StaysWilling, DoesNotFail, DoesNotFault, WasRead, LeavesToRead, read_end_of};

use crate::desk::Desk;
use crate::stop::Stop;
use std::alloc::{AllocError, Global};

/// Why a file wasn't read whole.
#[derive(Clone, Copy, Debug, PartialEq, Eq, Drop)]
pub enum ReadEnd {
    /// The desk failed; its count of faults of reading rose.
    Fault,
    /// The file has more bytes than were allowed.
    TooLong,
    /// There was no memory.
    Memory,
}

impl From<Stop> for ReadEnd {
    ghost from_gives = { λ stop end. end ≡ read_end_of stop };

    fn from(stop: Stop) -> ReadEnd {
        match stop {
            Stop::Failed => ReadEnd::Fault,
            Stop::Memory => ReadEnd::Memory,
        }
    }
}

impl From<AllocError> for ReadEnd {
    ghost from_gives = { λ _ end. end ≡ Memory };

    fn from(_: AllocError) -> ReadEnd {
        ReadEnd::Memory
    }
}

// How many bytes are asked for at once.
const PIECE: usize = 65536;

/// Reads the named file whole: all its bytes, of which there are at most `limit`.
///
/// `TooLong` comes exactly where the file has more than `limit` bytes, a fault and want of memory
/// before that aside. `Fault` comes only where the desk's count of faults of reading rose in this
/// call, and never over a willing desk that has the file; a strict desk has each file that is read. Over any desk it ends at `limit + 1` bytes at
/// the latest. Nothing but what is left to read changes: nothing is left of a file that was read whole,
/// and else it is what was left before, or the file behind those bytes that were read. A willing desk
/// stays willing.
pub fn read_all<D: Desk>(
    alloc: Global,
    desk: &mut D,
    name: &str,
    limit: usize,
) -> Result<Vec<u8>, ReadEnd>
    requires { limit + 1 < 2 ^ 64 }
    ensures whole { IfOk result (λ v. IfSome (D.content desk.old) (λ c. v.items ≡ bytes_of c.files name.now)) }
    ensures within { IfOk result (λ v. vec_len v ≤ limit) }
    ensures too_long { IsErrOf result ReadEnd.TooLong → IfSome (D.content desk.old) (λ c. limit < length (bytes_of c.files name.now)) }
    ensures cause { ReadCounts (D.read_faults desk.old) (D.read_faults desk.new) result }
    ensures other { D.write_faults desk.new ≡ D.write_faults desk.old }
    ensures changes { OnlyLeftDiffers (D.content desk.old) (D.content desk.new) }
    ensures left { LeavesToRead result limit (λ c. bytes_of c.files name.now) (D.content desk.old) (D.content desk.new) }
    ensures stays_willing { StaysWilling (D.willing desk.old) (D.willing desk.new) }
    ensures never_fails { IsTrue (D.willing desk.old) → HasFile name.now (D.content desk.old) → DoesNotFault result }
    ensures found { WasRead result → IsTrue D.strict → HasFile name.now (D.content desk.old) }
{
    desk.begin_read(name)?;
    let mut piece = zeros(alloc, PIECE)?;
    gather(alloc, desk, limit, &mut piece)
}

// All that is left to read, of which there are at most `limit` bytes.
fn gather<D: Desk>(
    alloc: Global,
    desk: &mut D,
    limit: usize,
    piece: &mut [u8],
) -> Result<Vec<u8>, ReadEnd>
    requires bounded { limit + 1 < 2 ^ 64 }
    requires piece { 0 < length piece.old }
    ensures whole { IfOk result (λ v. IfSome (D.content desk.old) (λ c. v.items ≡ c.left)) }
    ensures within { IfOk result (λ v. vec_len v ≤ limit) }
    ensures too_long { IsErrOf result ReadEnd.TooLong → IfSome (D.content desk.old) (λ c. limit < length c.left) }
    ensures cause { ReadCounts (D.read_faults desk.old) (D.read_faults desk.new) result }
    ensures other { D.write_faults desk.new ≡ D.write_faults desk.old }
    ensures changes { OnlyLeftDiffers (D.content desk.old) (D.content desk.new) }
    ensures left { LeavesToRead result limit (λ c. c.left) (D.content desk.old) (D.content desk.new) }
    ensures stays_willing { StaysWilling (D.willing desk.old) (D.willing desk.new) }
    ensures never_fails { IsTrue (D.willing desk.old) → DoesNotFault result }
{
    let mut all = Vec::new(alloc);
    'pieces: while all.len() <= limit {
        let count = read_front(desk, piece, limit + 1 - all.len())?;
        if count == 0 {
            return Ok(all);
        }
        let (front, _) = piece.split_at(count);
        all.extend_from_slice(front)?;
    }
    Err(ReadEnd::TooLong)
}

// One read of at most `most` bytes into the front of `piece`.
fn read_front<D: Desk>(desk: &mut D, piece: &mut [u8], most: usize) -> Result<usize, Stop>
    requires nonempty { 0 < length piece.old }
    requires positive { 0 < most }
    ensures cause { Counts (D.read_faults desk.old) (D.read_faults desk.new) result }
    ensures other { D.write_faults desk.new ≡ D.write_faults desk.old }
    ensures within { IfOk result (λ count. count ≤ length piece.new) }
    ensures most { IfOk result (λ count. count ≤ most) }
    ensures bytes { Reads result (D.content desk.old) piece.new }
    ensures changes { Changes result consumed (D.content desk.old) (D.content desk.new) }
    ensures stays_willing { StaysWilling (D.willing desk.old) (D.willing desk.new) }
    ensures never_fails { IsTrue (D.willing desk.old) → DoesNotFail result }
{
    let room = piece.len().min(most);
    desk.read(&mut piece[..room])
}

// So many bytes, all 0.
fn zeros(alloc: Global, count: usize) -> Result<Vec<u8>, AllocError>
    ensures { IfOk result (λ v. vec_len v ≡ count) }
{
    vec![in alloc; 0; count]
}
