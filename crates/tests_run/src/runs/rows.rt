// Runs of one command line each, on worked drawings.

use super::fences::{ALL_OR_NOTHING, ALL_OR_NOTHING_SAID, MODES, MODES_SAID};
use super::packing::{NO_ENTRIES, PACK};
use super::patches::PATCH;
use super::*;
use sample_elements::{
    ARC, ATTRIBUTED_LINE, CELL, CELL_OF_52, CELL_OF_81, CHAIN_HEADER, DASHED_LINE, DATA,
    DELETED_LINE, FIRST_LINE, FREED_COPY, LAST_LINE, LOCKED_MEMBER, MEMBER_ON_2, MOVED_CELL,
    MOVED_LOCKED_MEMBER, NEARLY_END, NEW_CHAIN, NEW_LINE, REFERENCE, RESERVED_LINE, SHARED_CELL,
    SHORT_LINE, SHORT_MEMBER, SMALL_HEADER, SPACE_CHAIN, SPACE_LINE, SPLINE, SPLINE_PART, TEXT,
};

// What may stand behind the mark.
const REST: [u8; 8] = [0; 8];

// What stands behind the mark of a file of four blocks.
const ROOM: [u8; 458] = [0; 458];

// What fills its fifth.
const FILLING: [u8; 460] = [0; 460];

// What a run leaves as the file `out`.
#[derive(Clone, Copy)]
enum Wanted {
    // There is none.
    Nothing,
    // IN with these bytes at their places.
    Changed(&'static [(usize, &'static [u8])]),
    // A TCB as that of IN, these pieces behind it, and then these bytes at their places.
    Pieces(&'static [&'static [u8]], &'static [(usize, &'static [u8])]),
    // These bytes.
    File(&'static [u8]),
}

// The words of a run, byte 1214 of IN, what stands behind its TCB, the script, the status, what is said, and what is left.
#[derive(Clone, Copy)]
struct Row {
    words: &'static [&'static str],
    mark: u8,
    behind: &'static [&'static [u8]],
    script: &'static [u8],
    status: Status,
    said: &'static [u8],
    wanted: Wanted,
}

// Colours of single elements.
const COLOURS: [Row; 9] = [
    Row {
        words: &EDIT,
        mark: 0,
        behind: &[&LINE, &END],
        script: b"color 1 7\ncolor 9 1\n",
        status: Status::SomeRefused,
        said: b"ok\nrefused unknown 9\n",
        wanted: Wanted::Changed(&[(1571, &[7])]),
    },
    Row {
        words: &EDIT,
        mark: 0,
        behind: &[&LINE],
        script: b"  color  1   3  \r\n\n# x\r\ncolor 1 255",
        status: Status::Done,
        said: b"ok\nok\n",
        wanted: Wanted::Changed(&[(1571, &[255])]),
    },
    Row {
        words: &EDIT,
        mark: 0,
        behind: &[&END],
        script: b"",
        status: Status::Done,
        said: b"",
        wanted: Wanted::Changed(&[(1535, &[0])]),
    },
    Row {
        words: &EDIT,
        mark: 0,
        behind: &[&REFERENCE, &LINE, &END],
        script: b"color 1 2\ncolor 2 2\ncolor 3 2\n",
        status: Status::SomeRefused,
        said: b"refused opaque 1\nok\nrefused unknown 3\n",
        wanted: Wanted::Changed(&[(1581, &[2])]),
    },
    Row {
        words: &EDIT,
        mark: 0,
        behind: &[&DELETED_LINE, &END],
        script: b"color 1 2\ncolor 0 2\ncolor 4294967295 2\n",
        status: Status::SomeRefused,
        said: b"refused deleted 1\nrefused opaque 0\nrefused unknown 4294967295\n",
        wanted: Wanted::Changed(&[(1571, &[0])]),
    },
    Row {
        words: &EDIT,
        mark: 0x40,
        behind: &[&SPACE_CHAIN, &END],
        script: b"color 1 9\n",
        status: Status::Done,
        said: b"ok\n",
        wanted: Wanted::Changed(&[(1571, &[9])]),
    },
    Row {
        words: &EDIT,
        mark: 0,
        behind: &[&LINE, &RESERVED_LINE, &END, &LINE],
        script: b"color 2 8\n",
        status: Status::Done,
        said: b"ok\n",
        wanted: Wanted::Changed(&[(1623, &[8])]),
    },
    Row {
        words: &EDIT,
        mark: 0,
        behind: &[&ATTRIBUTED_LINE, &DATA, &END],
        script: b"color 1 5\n",
        status: Status::Done,
        said: b"ok\n",
        wanted: Wanted::Changed(&[(1571, &[5])]),
    },
    Row {
        words: &EDIT,
        mark: 0,
        behind: &[&DASHED_LINE, &END],
        script: b"color 1 4\n",
        status: Status::Done,
        said: b"ok\n",
        wanted: Wanted::Changed(&[(1571, &[4])]),
    },
];

// Moves, deletions and looks.
const EDITS: [Row; 8] = [
    Row {
        words: &EDIT,
        mark: 0,
        behind: &[&LINE, &END],
        script: b"show\nmove 1 10 -5\nshow\n",
        status: Status::Done,
        said: b"1 0 3 1 0 0 0 path 0,0 100,50\nshown 1\nok\n1 0 3 1 0 0 0 path 10,-5 110,45\nshown 1\n",
        wanted: Wanted::Changed(&[
            (1540, &[0x00, 0x80, 0x0A, 0x00]),
            (1544, &[0xFF, 0x7F, 0xFB, 0xFF]),
            (1552, &[0x00, 0x80, 0x6E, 0x00]),
            (1556, &[0x00, 0x80, 0x2D, 0x00]),
            (1572, &[0x00, 0x00, 0x0A, 0x00]),
            (1576, &[0xFF, 0xFF, 0xFB, 0xFF]),
            (1580, &[0x00, 0x00, 0x6E, 0x00]),
            (1584, &[0x00, 0x00, 0x2D, 0x00]),
        ]),
    },
    Row {
        words: &EDIT,
        mark: 0,
        behind: &[&LAST_LINE, &END],
        script: b"move 1 1 0\n",
        status: Status::SomeRefused,
        said: b"refused off-plane 1\n",
        wanted: Wanted::Changed(&[]),
    },
    Row {
        words: &EDIT,
        mark: 0,
        behind: &[&FIRST_LINE, &END],
        script: b"move 1 4294967295 0\nshow\n",
        status: Status::Done,
        said: b"ok\n1 0 3 1 0 0 0 path 2147483647,0 2147483647,10\nshown 1\n",
        wanted: Wanted::Changed(&[
            (1540, &[0xFF, 0xFF, 0xFF, 0xFF]),
            (1552, &[0xFF, 0xFF, 0xFF, 0xFF]),
            (1572, &[0xFF, 0x7F, 0xFF, 0xFF]),
            (1580, &[0xFF, 0x7F, 0xFF, 0xFF]),
        ]),
    },
    Row {
        words: &EDIT,
        mark: 0,
        behind: &[&CELL, &MEMBER, &END],
        script: b"tree 1\nshow\nmove 1 5 7\n",
        status: Status::Done,
        said: b"1 0 2 1 group live\n2 1 3 1 leaf live\ntree 2\n1 0 2 1 0 0 0 cell [ABC       ] 0,0\n2 1 3 1 0 0 0 path 0,0 100,50\nshown 2\nok\n",
        wanted: Wanted::Changed(&[
            (1540, &[0x00, 0x80, 0x05, 0x00]),
            (1544, &[0x00, 0x80, 0x07, 0x00]),
            (1552, &[0x00, 0x80, 0x69, 0x00]),
            (1556, &[0x00, 0x80, 0x39, 0x00]),
            (1620, &[0x00, 0x00, 0x05, 0x00]),
            (1624, &[0x00, 0x00, 0x07, 0x00]),
            (1632, &[0x00, 0x80, 0x05, 0x00]),
            (1636, &[0x00, 0x80, 0x07, 0x00]),
            (1644, &[0x00, 0x80, 0x69, 0x00]),
            (1648, &[0x00, 0x80, 0x39, 0x00]),
            (1664, &[0x00, 0x00, 0x05, 0x00]),
            (1668, &[0x00, 0x00, 0x07, 0x00]),
            (1672, &[0x00, 0x00, 0x69, 0x00]),
            (1676, &[0x00, 0x00, 0x39, 0x00]),
        ]),
    },
    Row {
        words: &EDIT,
        mark: 0,
        behind: &[&CELL, &MEMBER, &END],
        script: b"move 2 1 1\nmove 9 1 1\nmove 0 1 1\n",
        status: Status::SomeRefused,
        said: b"ok\nrefused unknown 9\nrefused opaque 0\n",
        wanted: Wanted::Changed(&[
            (1552, &[0x00, 0x80, 0x65, 0x00]),
            (1556, &[0x00, 0x80, 0x33, 0x00]),
            (1632, &[0x00, 0x80, 0x01, 0x00]),
            (1636, &[0x00, 0x80, 0x01, 0x00]),
            (1644, &[0x00, 0x80, 0x65, 0x00]),
            (1648, &[0x00, 0x80, 0x33, 0x00]),
            (1664, &[0x00, 0x00, 0x01, 0x00]),
            (1668, &[0x00, 0x00, 0x01, 0x00]),
            (1672, &[0x00, 0x00, 0x65, 0x00]),
            (1676, &[0x00, 0x00, 0x33, 0x00]),
        ]),
    },
    Row {
        words: &EDIT,
        mark: 0,
        behind: &[&SMALL_HEADER, &NEARLY_END],
        script: b"delete 1\nsym 1 1 1 1\n",
        status: Status::SomeRefused,
        said: b"refused opaque 2\nrefused opaque 2\n",
        wanted: Wanted::Changed(&[]),
    },
    Row {
        words: &EDIT,
        mark: 0x40,
        behind: &[&SPACE_LINE, &END],
        script: b"move 1 1 2\nmove 1 1 2 3\nshow\n",
        status: Status::SomeRefused,
        said: b"refused dimension\nok\n1 0 3 1 0 0 0 path 1,2,3 11,12,13\nshown 1\n",
        wanted: Wanted::Changed(&[
            (1540, &[0x00, 0x80, 0x01, 0x00]),
            (1544, &[0x00, 0x80, 0x02, 0x00]),
            (1548, &[0x00, 0x80, 0x03, 0x00]),
            (1552, &[0x00, 0x80, 0x0B, 0x00]),
            (1556, &[0x00, 0x80, 0x0C, 0x00]),
            (1560, &[0x00, 0x80, 0x0D, 0x00]),
            (1572, &[0x00, 0x00, 0x01, 0x00]),
            (1576, &[0x00, 0x00, 0x02, 0x00]),
            (1580, &[0x00, 0x00, 0x03, 0x00]),
            (1584, &[0x00, 0x00, 0x0B, 0x00]),
            (1588, &[0x00, 0x00, 0x0C, 0x00]),
            (1592, &[0x00, 0x00, 0x0D, 0x00]),
        ]),
    },
    Row {
        words: &EDIT,
        mark: 0,
        behind: &[&CELL_OF_81, &MEMBER, &ARC, &END],
        script: b"move 1 1 1\ncopy 1 1 1\nshow\nsym 1 4 - -\n",
        status: Status::SomeRefused,
        said: b"refused floating 3\nrefused floating 3\n1 0 2 1 0 0 0 cell [ABC       ] 0,0\n\
2 1 3 1 0 0 0 path 0,0 100,50\n3 1 16 1 0 0 0 box 5,5 9,9\nshown 3\nok\n",
        wanted: Wanted::Changed(&[
            (1568, &[0x00, 0x00, 0x00, 0x04]),
            (1660, &[0x00, 0x00, 0x00, 0x04]),
            (1712, &[0x00, 0x00, 0x00, 0x04]),
        ]),
    },
];

// Appended elements, copies and undos.
const SESSIONS: [Row; 9] = [
    Row {
        words: &EDIT,
        mark: 0,
        behind: &[&LINE, &END, &REST],
        script: b"line 2 3 1 0 0,0 10,10\n",
        status: Status::Done,
        said: b"ok\n",
        wanted: Wanted::Pieces(&[&LINE, &NEW_LINE, &END, &REST], &[]),
    },
    Row {
        words: &EDIT,
        mark: 0,
        behind: &[&CELL_OF_52, &MEMBER, &END],
        script: b"move 1 1 1\nmove 2 1 1\nline 1 0 0 0 0,0 1,1\ntree 1\n",
        status: Status::SomeRefused,
        said: b"refused broken 1\nrefused broken 2\nok\n1 0 2 1 loose live\ntree 1\n",
        wanted: Wanted::Pieces(&[&CELL_OF_52, &MEMBER, &SHORT_LINE, &END], &[]),
    },
    Row {
        words: &EDIT,
        mark: 0,
        behind: &[&CELL_OF_52, &MEMBER, &END],
        script: b"line 1 0 0 0 0,0 1,1\ntree 3\nundo\ntree 3\ntree 1\n",
        status: Status::SomeRefused,
        said: b"ok\n3 0 3 1 leaf live\ntree 1\nok\nrefused unknown 3\n1 0 2 1 loose live\ntree 1\n",
        wanted: Wanted::Pieces(&[&CELL_OF_52, &MEMBER, &END], &[]),
    },
    Row {
        words: &EDIT,
        mark: 0x40,
        behind: &[&END],
        script: b"line 1 0 0 0 0,0 1,1\nstring 1 2 3 4 0,0,0 5,5,5\nshow\n",
        status: Status::SomeRefused,
        said: b"refused dimension\nok\n1 0 4 1 2 3 4 path 0,0,0 5,5,5\nshown 1\n",
        wanted: Wanted::Pieces(&[&NEW_CHAIN, &END], &[]),
    },
    Row {
        words: &EDIT,
        mark: 0,
        behind: &[&END],
        script: b"text 1 0 0 0 3 0 1000 1000 5,6 Hi there\nshow\ncopy 1 -5 -6\nundo\n",
        status: Status::Done,
        said: b"ok\n1 0 17 1 0 0 0 text 5,6 Hi there\nshown 1\nok\nok\n",
        wanted: Wanted::Pieces(&[&TEXT, &END], &[]),
    },
    Row {
        words: &EDIT,
        mark: 0,
        behind: &[&LINE, &END],
        script: b"delete 1\nshow\ndelete 1\nundo\nshow\n",
        status: Status::SomeRefused,
        said: b"ok\nshown 0\nrefused deleted 1\nok\n1 0 3 1 0 0 0 path 0,0 100,50\nshown 1\n",
        wanted: Wanted::Pieces(&[&LINE, &END], &[]),
    },
    Row {
        words: &EDIT,
        mark: 0,
        behind: &[&LINE, &END],
        script: b"delete 1\ncopy 1 0 0\nline 1 0 0 0 0,0 1,1\nundo\nundo\nundo\nshow\n",
        status: Status::SomeRefused,
        said: b"ok\nrefused deleted 1\nok\nok\nok\nrefused nothing\n1 0 3 1 0 0 0 path 0,0 100,50\nshown 1\n",
        wanted: Wanted::Pieces(&[&LINE, &END], &[]),
    },
    Row {
        words: &EDIT,
        mark: 0,
        behind: &[&CELL, &MEMBER, &END],
        script: b"copy 2 10 10\nshow\ndelete 2\nshow\nsym 2 1 - -\ndelete 1\nmove 2 1 1\n",
        status: Status::SomeRefused,
        said: b"ok\n1 0 2 1 0 0 0 cell [ABC       ] 0,0\n2 1 3 1 0 0 0 path 0,0 100,50\n\
3 0 3 1 0 0 0 path 10,10 110,60\nshown 3\nok\n3 0 3 1 0 0 0 path 10,10 110,60\nshown 1\nrefused deleted 2\nok\n\
refused deleted 1\n",
        wanted: Wanted::Pieces(
            &[&CELL, &MEMBER, &FREED_COPY, &END],
            &[
                (1536, &[0x01, 0x82, 0x2C, 0x00]),
                (1628, &[0x81, 0x83, 0x18, 0x00]),
            ],
        ),
    },
    Row {
        words: &EDIT,
        mark: 0,
        behind: &[&CELL, &LOCKED_MEMBER, &END],
        script: b"move 1 1 1\nsym 2 1 - -\ndelete 1\ncopy 1 1 1\ndelete 3\n",
        status: Status::SomeRefused,
        said: b"refused locked 2\nrefused locked 2\nrefused locked 2\nok\nrefused locked 4\n",
        wanted: Wanted::Pieces(
            &[
                &CELL,
                &LOCKED_MEMBER,
                &MOVED_CELL,
                &MOVED_LOCKED_MEMBER,
                &END,
            ],
            &[],
        ),
    },
];

// Listings, which change nothing.
const LISTINGS: [Row; 6] = [
    Row {
        words: &EDIT,
        mark: 0,
        behind: &[&REFERENCE, &SHORT_LINE, &END],
        script: b"elements\nrefs\nlinks 1\nlinks 7\n",
        status: Status::SomeRefused,
        said: b"0 0 1536 9 8 --\n1 1536 10 5 9 --\n2 1546 52 3 1 --\nlevel 8 1\nlevel 9 1\nlevel 1 1\ntype 9 1\n\
type 5 1\ntype 3 1\nelements 3\n1 1536 10 live\nrefs 1\nlinks 0\nrefused unknown 7\n",
        wanted: Wanted::Changed(&[]),
    },
    Row {
        words: &EDIT,
        mark: 0,
        behind: &[&CELL, &MEMBER_ON_2, &END],
        script: b"levels 2\nshow\nlevels 3-5 63\nshow\n",
        status: Status::Done,
        said: b"ok\n1 0 2 1 0 0 0 cell [ABC       ] 0,0\n2 1 3 2 0 0 0 path 0,0 100,50\nshown 2\nok\nshown 0\n",
        wanted: Wanted::Changed(&[]),
    },
    Row {
        words: &EDIT,
        mark: 0,
        behind: &[&CELL, &MEMBER, &END],
        script: b"tree 1\nlevels 2\nshow\nlevels all\nshow\n",
        status: Status::Done,
        said: b"1 0 2 1 group live\n2 1 3 1 leaf live\ntree 2\nok\nshown 0\nok\n1 0 2 1 0 0 0 cell [ABC       ] 0,0\n2 1 3 1 0 0 0 path 0,0 100,50\nshown 2\n",
        wanted: Wanted::Changed(&[]),
    },
    Row {
        words: &EDIT,
        mark: 0,
        behind: &[&CELL_OF_52, &MEMBER, &END],
        script: b"tree 1\ntree 2\nshow\ntree 5\n",
        status: Status::SomeRefused,
        said: b"1 0 2 1 loose live\ntree 1\n2 0 3 1 leaf live orphan\ntree 1\n2 0 3 1 0 0 0 path 0,0 100,50\nshown 1\nrefused unknown 5\n",
        wanted: Wanted::Changed(&[]),
    },
    Row {
        words: &EDIT,
        mark: 0,
        behind: &[&SPLINE, &SPLINE_PART, &SHARED_CELL, &SHORT_MEMBER, &END],
        script: b"show\ntree 1\ntree 3\n",
        status: Status::Done,
        said: b"1 0 27 1 0 0 0 box 0,0 9,9\nshown 1\n1 0 27 1 run live\n2 1 26 1 leaf live\ntree 2\n3 0 34 1 run live\n4 1 3 1 leaf live\ntree 2\n",
        wanted: Wanted::Changed(&[]),
    },
    Row {
        words: &EDIT,
        mark: 0,
        behind: &[&LINE, &DELETED_LINE, &END],
        script: b"tree 0\ntree 2\nlevels none\nshow\n",
        status: Status::Done,
        said: b"0 0 9 8 leaf live\ntree 1\n2 0 3 1 leaf deleted\ntree 1\nok\nshown 0\n",
        wanted: Wanted::Changed(&[]),
    },
];

// Trees chosen by a fence.
const FENCES: [Row; 2] = [
    Row {
        words: &EDIT,
        mark: 0,
        behind: &[&END],
        script: MODES,
        status: Status::SomeRefused,
        said: MODES_SAID,
        wanted: Wanted::Changed(&[]),
    },
    Row {
        words: &EDIT,
        mark: 0,
        behind: &[&END],
        script: ALL_OR_NOTHING,
        status: Status::SomeRefused,
        said: ALL_OR_NOTHING_SAID,
        wanted: Wanted::Changed(&[]),
    },
];

// Files in blocks of 512 bytes, or not.
const BLOCKS: [Row; 3] = [
    Row {
        words: &EDIT,
        mark: 0,
        behind: &[&LINE, &END, &ROOM],
        script: b"line 1 0 0 0 0,0 1,1\n",
        status: Status::Done,
        said: b"ok\n",
        wanted: Wanted::Pieces(&[&LINE, &SHORT_LINE, &END, &ROOM, &FILLING], &[]),
    },
    Row {
        words: &EDIT,
        mark: 0,
        behind: &[&LINE, &END, &ROOM],
        script: b"line 1 0 0 0 0,0 1,1\nundo\n",
        status: Status::Done,
        said: b"ok\nok\n",
        wanted: Wanted::Pieces(&[&LINE, &END, &ROOM], &[]),
    },
    Row {
        words: &EDIT,
        mark: 0,
        behind: &[],
        script: b"line 1 0 0 0 0,0 1,1\n",
        status: Status::Done,
        said: b"ok\n",
        wanted: Wanted::Pieces(&[&SHORT_LINE], &[]),
    },
];

// Runs that write no file: `check`, and scripts that are not run.
const UNWRITTEN: [Row; 8] = [
    Row {
        words: &CHECK,
        mark: 0,
        behind: &[&END],
        script: b"",
        status: Status::Done,
        said: b"elements 1\n",
        wanted: Wanted::Nothing,
    },
    Row {
        words: &CHECK,
        mark: 0,
        behind: &[&REFERENCE, &MEMBER, &END],
        script: b"",
        status: Status::Done,
        said: b"elements 3\n",
        wanted: Wanted::Nothing,
    },
    Row {
        words: &CHECK,
        mark: 0,
        behind: &[&CHAIN_HEADER, &LINE],
        script: b"",
        status: Status::Done,
        said: b"elements 3\n",
        wanted: Wanted::Nothing,
    },
    Row {
        words: &CHECK,
        mark: 0,
        behind: &[&LINE, &END, &CHAIN_HEADER],
        script: b"",
        status: Status::Done,
        said: b"elements 2\n",
        wanted: Wanted::Nothing,
    },
    Row {
        words: &EDIT,
        mark: 0,
        behind: &[&LINE, &END],
        script: b"color 1 1\n\ncolour 1 1\n",
        status: Status::BadScript,
        said: b"bad script line 3\n",
        wanted: Wanted::Nothing,
    },
    Row {
        words: &EDIT,
        mark: 0,
        behind: &[&LINE, &END],
        script: b"# x\r\n\r\ncolor 1 256",
        status: Status::BadScript,
        said: b"bad script line 3\n",
        wanted: Wanted::Nothing,
    },
    Row {
        words: &EDIT,
        mark: 0,
        behind: &[&LINE, &END],
        script: b"undo\nfence\ncolour",
        status: Status::BadScript,
        said: b"bad script line 2\n",
        wanted: Wanted::Nothing,
    },
    Row {
        words: &EDIT,
        mark: 0,
        behind: &[&LINE, &END],
        script: b"show\r\nundo\r\n\r\n# x\r\nmove 1 +1 2",
        status: Status::BadScript,
        said: b"bad script line 5\n",
        wanted: Wanted::Nothing,
    },
];

// Packed edits.
const PACKED: [Row; 4] = [
    Row {
        words: &PACK,
        mark: 0,
        behind: &[&LINE, &END],
        script: b"move 1 10 -5\nundo\ncolor 1 7\n",
        status: Status::Done,
        said: b"entries 1\n",
        wanted: Wanted::File(&PATCH),
    },
    Row {
        words: &PACK,
        mark: 0,
        behind: &[&LINE, &END],
        script: b"",
        status: Status::Done,
        said: b"entries 0\n",
        wanted: Wanted::File(NO_ENTRIES),
    },
    Row {
        words: &PACK,
        mark: 0,
        behind: &[&LINE, &END],
        script: b"show\ncolor 1 7\nundo\nundo\n",
        status: Status::SomeRefused,
        said: b"entries 0\n",
        wanted: Wanted::File(NO_ENTRIES),
    },
    Row {
        words: &PACK,
        mark: 0,
        behind: &[&LINE, &END],
        script: b"move 9 1 1\ncolor 1 7\nelements\n",
        status: Status::SomeRefused,
        said: b"entries 1\n",
        wanted: Wanted::File(&PATCH),
    },
];

// What is left as `out` of a drawing of that TCB.
fn file_of(alloc: Global, row: &Row) -> Result<Option<Vec<u8>>, AllocError> {
    let (pieces, changes) = match row.wanted {
        Wanted::Nothing => return Ok(None),
        Wanted::File(bytes) => return Ok(Some(Vec::from_slice(alloc, bytes)?)),
        Wanted::Changed(changes) => (row.behind, changes),
        Wanted::Pieces(pieces, changes) => (pieces, changes),
    };
    Ok(Some(with_bytes(design(alloc, row.mark, pieces)?, changes)))
}

// Each row's run ends, says and leaves what the row has.
fn all_show<R: Abort + Alloc<A = Global>>(rt: &R, rows: &[Row]) -> Result<(), AllocError> {
    let alloc = rt.alloc();
    for row in rows {
        let files = (design(alloc, row.mark, row.behind)?, row.script);
        let out = file_of(alloc, row)?;
        let left = out.as_ref().map(|bytes| bytes.as_slice());
        shows(rt, row.words, files, (row.status, row.said, left))?;
    }
    Ok(())
}

#[test]
fn colours(rt: HostRuntime) -> Result<(), Fail> {
    all_show(&rt, &COLOURS)?;
    Ok(())
}

#[test]
fn edits(rt: HostRuntime) -> Result<(), Fail> {
    all_show(&rt, &EDITS)?;
    Ok(())
}

#[test]
fn sessions(rt: HostRuntime) -> Result<(), Fail> {
    all_show(&rt, &SESSIONS)?;
    Ok(())
}

#[test]
fn listings(rt: HostRuntime) -> Result<(), Fail> {
    all_show(&rt, &LISTINGS)?;
    Ok(())
}

#[test]
fn fences(rt: HostRuntime) -> Result<(), Fail> {
    all_show(&rt, &FENCES)?;
    Ok(())
}

#[test]
fn files_in_blocks(rt: HostRuntime) -> Result<(), Fail> {
    all_show(&rt, &BLOCKS)?;
    Ok(())
}

#[test]
fn unwritten(rt: HostRuntime) -> Result<(), Fail> {
    all_show(&rt, &UNWRITTEN)?;
    Ok(())
}

#[test]
fn packed_edits(rt: HostRuntime) -> Result<(), Fail> {
    all_show(&rt, &PACKED)?;
    Ok(())
}
