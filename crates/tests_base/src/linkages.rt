// Attribute data whose linkages are known.

use dgn_linkage::*;
use std::test::Fail;
use types::{Form, Link};

fn link(at: usize, len: usize, form: Form) -> Link {
    Link { at, len, form }
}

#[test]
fn linkages(rt: HostRuntime) -> Result<(), Fail> {
    let alloc = rt.alloc();
    let usual = [
        0x00, 0x80, 0x01, 0x00, 0x00, 0x00, 0x00, 0x00, 0x02, 0x10, 0x00, 0x00, 0x00, 0x00, 0x01,
        0x00, 0x00, 0x00,
    ];
    let rows: [(&[u8], &[Link]); 7] = [
        (&[], &[]),
        (
            &usual,
            &[
                link(0, 8, Form::Dmrs),
                link(8, 6, Form::User),
                link(14, 4, Form::Rest),
            ],
        ),
        // Fewer than four bytes, though they look like a User of two.
        (&[0x00, 0x10, 0x00], &[link(0, 3, Form::Rest)]),
        // A Dmrs and a User that are longer than the data.
        (&usual[..7], &[link(0, 7, Form::Rest)]),
        (&usual[8..12], &[link(0, 4, Form::Rest)]),
        // A User of one word, then what is too short to be one.
        (
            &[0x00, 0x30, 0x00, 0x10],
            &[link(0, 2, Form::User), link(2, 2, Form::Rest)],
        ),
        // The bit of a User in the first byte says nothing.
        (&[0x10, 0x00, 0x00, 0x00], &[link(0, 4, Form::Rest)]),
    ];
    for (bytes, wanted) in rows {
        let given: Vec<Link> = links(bytes).collect(alloc)?;
        assert!(rt; given.as_slice() == wanted);
    }
    Ok(())
}
