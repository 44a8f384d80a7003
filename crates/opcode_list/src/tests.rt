//! Lists that are put together from opcodes, and what DNG 1.6 and this project's limits say of them. All parameters are
//! written as 32-bit words.

use super::*;
use lists::Items;
use plane_view::Rect;
use std::alloc::{AllocError, Global};
use std::test::Fail;
use text_line::Line;

/// An opcode that is written: `len` is how many bytes of parameters it announces.
#[derive(Clone, Copy)]
struct TestOpcode<'a> {
    id: u32,
    version: [u8; 2],
    flags: u32,
    len: u32,
    params: &'a [u32],
}

/// Constant 9, phase 1.
const CONSTANT: [u32; 2] = [9, 1];

/// Phase 2, the point 3 4 and the rectangle 5 6 7 8.
const LIST: [u32; 9] = [2, 1, 1, 3, 4, 5, 6, 7, 8];

const TRIM: [u32; 4] = [1, 0, 8, 9];

/// A rectangle, plane 0, planes 1, pitches 2 and 3, and the entries 5 and 7.
const MAP: [u32; 10] = [1, 0, 8, 9, 0, 1, 2, 3, 2, 0x0005_0007];

/// An opcode of the version 1.3 with flags 0.
fn told(id: u32, len: u32, params: &[u32]) -> TestOpcode<'_> {
    TestOpcode {
        id,
        version: [1, 3],
        flags: 0,
        len,
        params,
    }
}

/// The opcode of an ID with the parameters above.
fn known(id: u32) -> TestOpcode<'static> {
    match id {
        4 => told(id, 8, &CONSTANT),
        5 => told(id, 36, &LIST),
        6 => told(id, 16, &TRIM),
        _ => told(id, 40, &MAP),
    }
}

/// What is read of it.
fn opcode(alloc: Global, id: u32) -> Result<Opcode, AllocError> {
    let rect = Rect {
        top: 1,
        left: 0,
        bottom: 8,
        right: 9,
    };
    let part = Rect {
        top: 5,
        left: 6,
        bottom: 7,
        right: 8,
    };
    Ok(match id {
        4 => Opcode::FixConstant {
            constant: 9,
            phase: 1,
        },
        5 => Opcode::FixList {
            phase: 2,
            points: Items::from_slice(alloc, &[(3, 4)])?,
            rects: Items::from_slice(alloc, &[part])?,
        },
        6 => Opcode::Trim { rect },
        _ => Opcode::Map {
            rect,
            plane: 0,
            planes: 1,
            row_pitch: 2,
            col_pitch: 3,
            table: Items::from_slice(alloc, &[5, 7])?,
        },
    })
}

/// The bytes of a list.
fn bytes_of(alloc: Global, opcodes: &[TestOpcode<'_>]) -> Result<Vec<u8>, AllocError> {
    let count = u32::try_from(opcodes.len()).map_err(|_| AllocError)?;
    let mut bytes = count.to_be_bytes().to_vec(alloc)?;
    for told in opcodes {
        bytes.extend_from_slice(&told.id.to_be_bytes())?;
        bytes.extend_from_slice(&told.version)?;
        bytes.extend_from_slice(&[0, 0])?;
        bytes.extend_from_slice(&told.flags.to_be_bytes())?;
        bytes.extend_from_slice(&told.len.to_be_bytes())?;
        for word in told.params {
            bytes.extend_from_slice(&word.to_be_bytes())?;
        }
    }
    Ok(bytes)
}

/// What is read of list 1, 2 or 3 with these opcodes.
fn read(alloc: Global, opcodes: &[TestOpcode<'_>], list: u8) -> Result<Items<Opcode>, OpcodeFault> {
    let bytes = bytes_of(alloc, opcodes)?;
    read_list(alloc, &bytes, list.clamp(1, 3))
}

#[test]
fn reads_opcodes(rt: HostRuntime) -> Result<(), Fail> {
    let alloc = rt.alloc();
    for id in 4..=7 {
        for flags in [0, 1, 3] {
            let told = TestOpcode { flags, ..known(id) };
            let want = vec![in alloc; opcode(alloc, id)?]?;
            assert_eq!(rt;
                read(alloc, &[told], 1),
                Ok(Items::from_vec(want)),
                "ID {id}, flags {flags}"
            );
        }
    }
    for id in 6..=7 {
        let want = vec![in alloc; opcode(alloc, id)?]?;
        assert_eq!(rt; read(alloc, &[known(id)], 3), Ok(Items::from_vec(want)));
    }
    let want = vec![in alloc; opcode(alloc, 5)?, opcode(alloc, 4)?]?;
    assert_eq!(rt;
        read(alloc, &[known(5), known(4)], 2),
        Ok(Items::from_vec(want))
    );
    Ok(())
}

#[test]
fn passes_over_what_may_be(rt: HostRuntime) -> Result<(), Fail> {
    let alloc = rt.alloc();
    for id in [1, 2, 3, 8, 9, 10, 11, 12, 13, 14, 4_294_967_295] {
        for list in 1..=3u8 {
            let unknown = told(id, 4, &[7]);
            assert_eq!(rt;
                read(alloc, &[known(7), unknown], list),
                Err(OpcodeFault::Unknown { index: 1, id })
            );
            let optional = TestOpcode {
                flags: 1,
                ..unknown
            };
            let want = vec![in alloc; Opcode::Skipped { id }, opcode(alloc, 7)?]?;
            assert_eq!(rt;
                read(alloc, &[optional, known(7)], list),
                Ok(Items::from_vec(want))
            );
        }
    }
    for (id, version, list) in [
        (6, [1, 7], 1),
        (7, [2, 0], 2),
        (4, [1, 6], 3),
        (5, [1, 3], 3),
        (1, [255, 255], 3),
    ] {
        let optional = TestOpcode {
            version,
            flags: 1,
            ..known(id)
        };
        let want = vec![in alloc; Opcode::Skipped { id }]?;
        assert_eq!(rt; read(alloc, &[optional], list), Ok(Items::from_vec(want)));
    }
    Ok(())
}

#[test]
fn refuses_opcodes(rt: HostRuntime) {
    let alloc = rt.alloc();
    let newer = |id| OpcodeFault::Newer { index: 0, id };
    for (id, version, list, want) in [
        (6, [1, 7], 1, newer(6)),
        (6, [2, 0], 1, newer(6)),
        (1, [1, 7], 1, newer(1)),
        (4, [1, 7], 3, newer(4)),
        (1, [1, 6], 3, OpcodeFault::Unknown { index: 0, id: 1 }),
        (4, [1, 6], 3, OpcodeFault::NotHere { index: 0, id: 4 }),
        (5, [0, 255], 3, OpcodeFault::NotHere { index: 0, id: 5 }),
    ] {
        let told = TestOpcode {
            version,
            ..known(id)
        };
        assert_eq!(rt;
            read(alloc, &[told], list),
            Err(want),
            "ID {id} of {version:?}"
        );
    }
}

/// IDs, lengths and parameters with which no opcode can be run.
fn bad_params() -> [(u32, u32, &'static [u32]); 20] {
    [
        // a length one byte off
        (4, 7, CONSTANT.as_slice()),
        (4, 9, &[9, 1, 0]),
        (5, 35, &LIST),
        (5, 37, &[2, 1, 1, 3, 4, 5, 6, 7, 8, 0]),
        (5, 11, &[0, 0, 0]),
        (6, 15, &TRIM),
        (6, 17, &[1, 0, 8, 9, 0]),
        (7, 39, &MAP),
        (7, 41, &[1, 0, 8, 9, 0, 1, 2, 3, 2, 0x0005_0007, 0]),
        (7, 35, &MAP),
        // a phase past 3
        (4, 8, &[9, 4]),
        (5, 12, &[4, 0, 0]),
        // counts that the bytes don't hold
        (5, 12, &[0, 4_294_967_295, 0]),
        (5, 12, &[0, 0, 4_294_967_295]),
        (7, 36, &[1, 0, 8, 9, 0, 1, 2, 3, 4_294_967_295]),
        // empty rectangles
        (6, 16, &[8, 0, 8, 9]),
        (6, 16, &[1, 9, 8, 9]),
        // a pitch 0, and no entry
        (7, 40, &[1, 0, 8, 9, 0, 1, 0, 3, 2, 0x0005_0007]),
        (7, 40, &[1, 0, 8, 9, 0, 1, 2, 0, 2, 0x0005_0007]),
        (7, 36, &[1, 0, 8, 9, 0, 1, 2, 3, 0]),
    ]
}

#[test]
fn refuses_parameters(rt: HostRuntime) {
    let alloc = rt.alloc();
    for (id, len, params) in bad_params() {
        let optional = TestOpcode {
            flags: 1,
            ..told(id, len, params)
        };
        assert_eq!(rt;
            read(alloc, &[known(6), optional], 1),
            Err(OpcodeFault::BadParams { index: 1, id }),
            "ID {id}, {params:?}"
        );
    }
    // the first refusal by the index, whichever it is
    let (bad, unknown) = (told(6, 15, &TRIM), told(1, 0, &[]));
    for (opcodes, want) in [
        ([bad, unknown], OpcodeFault::BadParams { index: 0, id: 6 }),
        ([unknown, bad], OpcodeFault::Unknown { index: 0, id: 1 }),
    ] {
        assert_eq!(rt; read(alloc, &opcodes, 1), Err(want));
    }
}

#[test]
fn reads_within_the_bytes(rt: HostRuntime) -> Result<(), Fail> {
    let alloc = rt.alloc();
    for (bytes, want) in [
        ([].as_slice(), Err(OpcodeFault::Truncated { index: 0 })),
        (&[0, 0, 0], Err(OpcodeFault::Truncated { index: 0 })),
        (&[0, 0, 0, 0], Ok(0)),
        (&[0, 0, 0, 0, 1], Ok(0)),
        (&[0, 0, 0, 1], Err(OpcodeFault::Truncated { index: 0 })),
        (&[0, 0, 0, 16], Err(OpcodeFault::Truncated { index: 0 })),
        (&[0, 0, 0, 17], Err(OpcodeFault::TooMany)),
        (&[1, 0, 0, 0], Err(OpcodeFault::TooMany)),
        (&[0xFF; 4], Err(OpcodeFault::TooMany)),
    ] {
        let found = read_list(alloc, bytes, 2).map(|list| list.len());
        assert_eq!(rt; found, want, "{bytes:?}");
    }
    let announced = told(4, 4_294_967_295, &CONSTANT);
    for (opcodes, index) in [([announced, known(6)], 0), ([known(7), announced], 1)] {
        assert_eq!(rt;
            read(alloc, &opcodes, 1),
            Err(OpcodeFault::Truncated { index })
        );
    }
    let full = bytes_of(alloc, &[known(6); 16])?;
    assert_eq!(rt; read_list(alloc, &full, 1).map(|list| list.len()), Ok(16));
    assert_eq!(rt;
        read_list(alloc, &full[..full.len().saturating_sub(1)], 1),
        Err(OpcodeFault::Truncated { index: 15 })
    );
    assert_eq!(rt; read(alloc, &[known(6); 17], 1), Err(OpcodeFault::TooMany));
    Ok(())
}

/// Faults, what is said of them in a line, and what is shown to people.
fn texts() -> [(OpcodeFault, &'static [u8], &'static [u8]); 7] {
    let (index, id) = (3, 4_294_967_295);
    [
        (
            OpcodeFault::TooMany,
            b"TooMany",
            b"the list has more than 16 opcodes",
        ),
        (
            OpcodeFault::Truncated { index },
            b"Truncated 3",
            b"opcode 3 passes the end of the list",
        ),
        (
            OpcodeFault::Newer { index, id },
            b"Newer 3 4294967295",
            b"opcode 3, with the ID 4294967295, is of a later DNG version",
        ),
        (
            OpcodeFault::Unknown { index, id },
            b"Unknown 3 4294967295",
            b"opcode 3 has the ID 4294967295, which can't be run",
        ),
        (
            OpcodeFault::NotHere { index, id },
            b"NotHere 3 4294967295",
            b"opcode 3, with the ID 4294967295, can't be run in list 3",
        ),
        (
            OpcodeFault::BadParams { index, id },
            b"BadParams 3 4294967295",
            b"opcode 3, with the ID 4294967295, has parameters that can't be run",
        ),
        (OpcodeFault::Memory, b"Memory", b"out of memory"),
    ]
}

#[test]
fn says_faults(rt: HostRuntime) -> Result<(), Fail> {
    for (fault, said, shown) in texts() {
        let mut line = Line::new();
        fault.say(&mut line);
        assert_eq!(rt; line.as_bytes(), said);
        assert_eq!(rt; fault.to_string(rt.alloc())?.as_bytes(), shown);
    }
    Ok(())
}
