//! What holds of all patches. Each call does nothing; its contract is the law.

ghost use Rattle.patch_bytes.specs.Laws.{LayingExchanges, LayingIsLocal, WritingBackRestores, ApartHoldTheFirst, OtherBytesStay, BytesBehindStay};
ghost use Rattle.patch_bytes.specs.Laws.{RisingPutsAreApart, RisingPutsJoin};
ghost use Rattle.patch_bytes.specs.PatchView.{PutsTell};

use crate::Patch;

/// Patches that put the same bytes at the same place are equal: a list of patches loses nothing where
/// a contract sees it as what they put.
pub fn puts_tell(p: Patch, q: Patch)
    ensures { PutsTell p q }
{
    let _ = (p, q);
}

/// A patch written and the one that then holds what stood there are exchanged by writing again. Each
/// byte that a patch holds becomes that of the patch, and every other stays.
pub fn writing_exchanges()
    ensures exchanges { LayingExchanges }
    ensures local { LayingIsLocal }
{}

/// Patches written in turn, and then what stood there each time, from the last to the first, give the
/// exact bytes before. Where no two share a byte, what stood there each time is what stood there
/// before the first was written.
pub fn writing_back_restores()
    ensures restores { WritingBackRestores }
    ensures first { ApartHoldTheFirst }
{}

/// Untouched bytes stay: the length, each byte that no patch holds, and all that is behind.
pub fn untouched_bytes_stay()
    ensures within { OtherBytesStay }
    ensures behind { BytesBehindStay }
{}

/// Patches that rise, each ending where the next begins or before, lie within and share no byte, and
/// two such lists, one behind the other, are one.
pub fn rising_patches_are_apart()
    ensures apart { RisingPutsAreApart }
    ensures join { RisingPutsJoin }
{}
