//! A law over the definitions that the contracts cite. The function does nothing; its contract is the law. Those that stand on
//! it are in `dgn_laws`.

ghost use Rattle.dgn_tool.specs.Laws.{UntouchedBytesStay};

/// The file that a run writes opens as the elements that the accepted commands make and the tail of the file that was
/// read, with the zero bytes behind it that fill its last block where that file was of whole blocks. It has that file's
/// byte at each place in the elements of that file that is in no field of a remaining edit: one that was accepted, and that
/// no undo took back.
pub fn untouched_bytes_stay()
    ensures { UntouchedBytesStay }
{}
