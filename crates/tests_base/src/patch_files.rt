// The worked file both ways, each cut of it and each broken rule.

use patch_file::*;
use std::test::Fail;

// One entry: of a body of 1588 bytes, the two bytes 0, 0 at 1570 become 0, 7, and nothing is appended.
const FILE: [u8; 33] = [
    0x44, 0x47, 0x4E, 0x50, 0x41, 0x54, 0x30, 0x31, 0x01, 0x00, 0x00, 0x00, 0x34, 0x06, 0x00, 0x00,
    0x01, 0x00, 0x00, 0x00, 0x00, 0x00, 0x00, 0x00, 0x22, 0x06, 0x00, 0x00, 0x02, 0x00, 0x00, 0x00,
    0x07,
];

const FIELD: Field = Field {
    at: 1570,
    len: 2,
    was: [0, 0, 0, 0],
    put: [0, 7, 0, 0],
};

#[test]
fn worked_file_both_ways(rt: HostRuntime) -> Result<(), Fail> {
    let entries = read_patch(rt.alloc(), &FILE).ok().ok_or("no bad piece")?;
    assert!(rt; entries.len() == 1);
    for entry in &entries {
        assert!(rt; entry.len == 1588);
        assert!(rt; entry.fields.as_slice() == [FIELD].as_slice());
        assert!(rt; entry.append.is_empty());
    }
    assert!(rt; patch_len(entries.as_slice()) == 33);
    let mut out = Vec::new(rt.alloc());
    write_patch(rt.alloc(), &mut out, entries.as_slice())?;
    assert!(rt; out.as_slice() == FILE.as_slice());
    Ok(())
}

#[test]
fn fields_behind_each_other(rt: HostRuntime) -> Result<(), Fail> {
    let mut fields = FieldList::new(rt.alloc());
    assert!(rt; fields.is_empty());
    fields.push(FIELD)?;
    assert!(rt; fields.len() == 1);
    assert!(rt; fields.get(0) == Some(FIELD));
    assert!(rt; fields.get(1) == None);
    Ok(())
}

// The file without its last bytes, and with one more.
#[test]
fn cut_files(rt: HostRuntime) -> Result<(), Fail> {
    for (first, last, offset) in [(0, 7, 0), (8, 11, 8), (12, 23, 12), (24, 32, 24)] {
        for len in first..=last {
            let cut = FILE.get(..len).ok_or("a front of the file")?;
            assert!(rt;
                read_patch(rt.alloc(), cut).err() == Some(PatchFault::At { offset }),
                "{len}"
            );
        }
    }
    let mut longer = FILE.to_vec(rt.alloc())?;
    longer.push(0)?;
    assert!(rt;
        read_patch(rt.alloc(), longer.as_slice()).err() == Some(PatchFault::At { offset: 33 })
    );
    Ok(())
}

// The file with one byte changed: the mark, the counts, the old length, and the field's place and length.
#[test]
fn broken_rules(rt: HostRuntime) {
    for (at, byte, offset) in [
        (7, 0x32, 0),
        (8, 0, 12),
        (8, 2, 33),
        (11, 0xFF, 33),
        (12, 0x23, 24),
        (16, 0, 24),
        (16, 2, 33),
        (20, 1, 33),
        (23, 0xFF, 33),
        (24, 0x33, 24),
        (27, 0xFF, 24),
        (28, 0, 24),
        (28, 3, 24),
        (28, 5, 24),
    ] {
        let mut file = FILE;
        if let Some(changed) = file.get_mut(at) {
            *changed = byte;
        }
        assert!(rt;
            read_patch(rt.alloc(), &file).err() == Some(PatchFault::At { offset }),
            "{at} {byte}"
        );
    }
}
