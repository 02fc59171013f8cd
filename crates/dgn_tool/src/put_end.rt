/// Why the entries of a patch file weren't all put on a body.
#[derive(Drop)]
pub enum PutEnd {
    // The entry with this number, from 1, doesn't stand.
    Refused { number: u32 },
    // Body and tail would have more bytes than a design file may.
    TooLong,
    // There was no memory.
    Memory,
}
