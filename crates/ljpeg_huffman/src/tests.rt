//! Tables of code words, and differences that bits spell by them.

ghost use Rattle.std.specs.Prelude.{◌≡◌, sum};
ghost use Rattle.ljpeg_huffman.specs.Words.{IsPrefixFree};

use crate::{BitFault, Bits, CodeTable, TableFault};
use std::test::Fail;

/// What a table and its data give: the differences and then the fault, or why there is no table.
type Outcome = Result<(&'static [i32], BitFault), TableFault>;

fn total(counts: &[u8; 16]) -> usize
    ensures { result ≡ sum counts.now }
{
    let mut total = 0;
    for count in counts {
        total += *count as usize;
    }
    total
}

/// No code word of a table is a prefix of another.
fn knows_prefix_free(table: &CodeTable)
    ensures { IsPrefixFree table.now }
{
    table.prefix_free();
}

/// So many code words of one bit, and so many of two.
fn short(one: u8, two: u8) -> [u8; 16] {
    [one, two, 0, 0, 0, 0, 0, 0, 0, 0, 0, 0, 0, 0, 0, 0]
}

#[test]
fn reads_differences(rt: HostRuntime) -> Result<(), Fail> {
    let cases: [([u8; 16], &[u8], &[u8], Outcome); 10] = [
        (
            short(1, 1),
            &[0, 1],
            &[0xa3],
            Ok((&[1, 0, 0, 0], BitFault::NoCode)),
        ),
        (
            short(2, 0),
            &[0, 1],
            &[0xff, 0, 0xff, 0xd9],
            Ok((&[1, 1, 1, 1], BitFault::Ended)),
        ),
        (
            short(1, 0),
            &[16],
            &[0x7f],
            Ok((&[32768], BitFault::NoCode)),
        ),
        (short(1, 1), &[0, 1], &[], Ok((&[], BitFault::Ended))),
        // five bytes, of which four are taken at once
        (
            short(1, 1),
            &[0, 1],
            &[0xaa; 5],
            Ok((
                &[1, 0, 1, 0, 1, 0, 1, 0, 1, 0, 1, 0, 1, 0, 1, 0, 1, 0, 1, 0],
                BitFault::Ended,
            )),
        ),
        // a code word of 16 bits, with 15 further ones
        (
            [1; 16],
            &[0, 1, 2, 3, 4, 5, 6, 7, 8, 9, 10, 11, 12, 13, 14, 15],
            &[0xff, 0, 0xfe, 0, 0],
            Ok((&[-32767, 0], BitFault::Ended)),
        ),
        (short(3, 0), &[0, 1, 2], &[], Err(TableFault::Overfull)),
        (
            short(1, 0),
            &[17],
            &[],
            Err(TableFault::Category { value: 17 }),
        ),
        (short(0, 0), &[], &[], Err(TableFault::Empty)),
        (
            [0, 0, 0, 0, 0, 0, 0, 0, 0, 0, 0, 0, 0, 0, 2, 255],
            &[0; 257],
            &[],
            Err(TableFault::TooMany),
        ),
    ];
    for (counts, values, stuffed, expected) in cases {
        assert_eq!(rt; values.len(), total(&counts));
        match (CodeTable::read(&counts, values), expected) {
            (Ok(table), Ok((differences, fault))) => {
                knows_prefix_free(&table);
                let mut bits = Bits::new(stuffed);
                for difference in differences {
                    assert_eq!(rt; bits.next_difference(&table), Ok(*difference));
                }
                assert_eq!(rt; bits.next_difference(&table), Err(fault));
            }
            (Err(found), Err(fault)) => assert_eq!(rt; found, fault),
            _ => assert!(rt; false, "a table where none is, or none where one is"),
        }
    }
    Ok(())
}
