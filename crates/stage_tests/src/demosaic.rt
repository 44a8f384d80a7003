//! Pixels of two planes, computed from the formula by tools/malvar_table.py, and parts of a plane against the whole.

ghost use Rattle.std.specs.Prelude.{◌≡◌};
ghost use Rattle.std.specs.Bool.{Decides};
ghost use Rattle.malvar.specs.Mosaics.{cfa_of, kind_of};
ghost use Rattle.malvar.specs.Pattern.{IsBayer};

use super::trial::{fill_with_noise, parts, pixel, rect, shape};
use malvar::{Demosaic, Kind, whole};
use stage_core::Stage;

/// One of the four patterns.
fn pattern(i: u32) -> [u8; 4]
    ensures { IsBayer result }
{
    match i {
        0 => [0, 1, 1, 2],
        1 => [2, 1, 1, 0],
        2 => [1, 0, 2, 1],
        _ => [1, 2, 0, 1],
    }
}

/// A plane of 4 rows and 5 columns.
const SMALL: [u16; 20] = [
    60000, 51, 1023, 40000, 40000, 18, 3000, 65535, 9, 60000, 700, 41000, 5, 12345, 60, 2, 777,
    50000, 65535, 1901,
];

/// How colours are filled in, the pattern, a row, a column, and the pixel there.
type Row = (Kind, u32, u32, u32, [u16; 3]);

/// The four corners of that plane, and a place inside.
static SMALL_PIXELS: [Row; 40] = [
    (Kind::Malvar, 0, 0, 0, [60000, 29604, 47354]),
    (Kind::Malvar, 0, 0, 4, [40000, 65535, 29603]),
    (Kind::Malvar, 0, 3, 0, [0, 2, 0]),
    (Kind::Malvar, 0, 3, 4, [0, 1901, 55551]),
    (Kind::Malvar, 0, 1, 2, [19108, 65535, 30508]),
    (Kind::Malvar, 1, 0, 0, [47354, 29604, 60000]),
    (Kind::Malvar, 1, 0, 4, [29603, 65535, 40000]),
    (Kind::Malvar, 1, 3, 0, [0, 2, 0]),
    (Kind::Malvar, 1, 3, 4, [55551, 1901, 0]),
    (Kind::Malvar, 1, 1, 2, [30508, 65535, 19108]),
    (Kind::Malvar, 2, 0, 0, [35883, 60000, 35971]),
    (Kind::Malvar, 2, 0, 4, [64747, 40000, 65535]),
    (Kind::Malvar, 2, 3, 0, [22245, 0, 2]),
    (Kind::Malvar, 2, 3, 4, [0, 6248, 1901]),
    (Kind::Malvar, 2, 1, 2, [39584, 11833, 65535]),
    (Kind::Malvar, 3, 0, 0, [35971, 60000, 35883]),
    (Kind::Malvar, 3, 0, 4, [65535, 40000, 64747]),
    (Kind::Malvar, 3, 3, 0, [2, 0, 22245]),
    (Kind::Malvar, 3, 3, 4, [1901, 6248, 0]),
    (Kind::Malvar, 3, 1, 2, [65535, 11833, 39584]),
    (Kind::Bilinear, 0, 0, 0, [60000, 35, 3000]),
    (Kind::Bilinear, 0, 0, 4, [40000, 50000, 9]),
    (Kind::Bilinear, 0, 3, 0, [700, 2, 777]),
    (Kind::Bilinear, 0, 3, 4, [60, 1901, 65535]),
    (Kind::Bilinear, 0, 1, 2, [514, 65535, 1505]),
    (Kind::Bilinear, 1, 0, 0, [3000, 35, 60000]),
    (Kind::Bilinear, 1, 0, 4, [9, 50000, 40000]),
    (Kind::Bilinear, 1, 3, 0, [777, 2, 700]),
    (Kind::Bilinear, 1, 3, 4, [65535, 1901, 60]),
    (Kind::Bilinear, 1, 1, 2, [1505, 65535, 514]),
    (Kind::Bilinear, 2, 0, 0, [51, 60000, 18]),
    (Kind::Bilinear, 2, 0, 4, [40000, 40000, 60000]),
    (Kind::Bilinear, 2, 3, 0, [41000, 739, 2]),
    (Kind::Bilinear, 2, 3, 4, [12345, 32798, 1901]),
    (Kind::Bilinear, 2, 1, 2, [23349, 1009, 65535]),
    (Kind::Bilinear, 3, 0, 0, [18, 60000, 51]),
    (Kind::Bilinear, 3, 0, 4, [60000, 40000, 40000]),
    (Kind::Bilinear, 3, 3, 0, [2, 739, 41000]),
    (Kind::Bilinear, 3, 3, 4, [1901, 32798, 12345]),
    (Kind::Bilinear, 3, 1, 2, [65535, 1009, 23349]),
];

fn small_pixels() -> &'static [Row] {
    &SMALL_PIXELS
}

/// Both kinds and the four patterns at the four corners, and inside.
#[test]
fn small_planes(rt: HostRuntime) {
    for (kind, i, row, column, want) in small_pixels() {
        let stage = Demosaic::new(*kind, pattern(*i));
        assert_eq!(rt;
            pixel(&stage, &SMALL, shape(4, 5, 1), *row, *column),
            Some(*want),
            "pattern {i}, row {row}, column {column}"
        );
    }
}

/// A plane of 8 by 8 that is dark but for one red site.
#[test]
fn bright_red(rt: HostRuntime) {
    let mut plane = [0u16; 64];
    plane[36] = 1600;
    let mut out = [0u16; 192];
    whole(&plane, 8, 8, pattern(0), &mut out);
    for (at, want) in [
        (36, [0x640, 0x320, 0x4b0]),
        (37, [0x320, 0, 0]),
        (38, [0, 0, 0]),
        (45, [0x190, 0, 0]),
    ] {
        let at: usize = at * 3;
        assert!(rt; at + 2 < 192);
        assert_eq!(rt; [out[at], out[at + 1], out[at + 2]], want, "pixel {at}");
    }
}

/// Every rectangle of a plane, by both kinds and the four patterns, is the part of the whole that lies there.
#[test]
fn parts_of_a_plane(rt: HostRuntime) {
    let mut plane = [0u16; 42];
    fill_with_noise(&mut plane);
    for kind in [Kind::Malvar, Kind::Bilinear] {
        for i in 0..4 {
            let stage = Demosaic::new(kind, pattern(i));
            // 6 * 7 / 2 by 7 * 8 / 2
            assert_eq!(rt;
                parts(&stage, &plane, shape(6, 7, 1), shape(6, 7, 3)),
                588,
                "pattern {i}"
            );
        }
    }
}

/// The shapes that are taken, and what a rectangle needs.
#[test]
fn shapes_and_needs(rt: HostRuntime) {
    for (rows, cols, planes, taken) in [
        (4, 4, 1, true),
        (3, 4, 1, false),
        (4, 3, 1, false),
        (8, 8, 3, false),
    ] {
        let made = Demosaic::new(Kind::Malvar, pattern(0)).shape(shape(rows, cols, planes));
        let want = shape(rows, cols, 3);
        assert_eq!(rt; made, if taken { Some(want) } else { None });
    }
    let part = rect(1, 3, 2, 7);
    for (kind, need) in [
        (Kind::Malvar, rect(0, 1, 4, 7)),
        (Kind::Bilinear, rect(0, 2, 3, 7)),
    ] {
        let stage = Demosaic::new(kind, pattern(1));
        assert_eq!(rt; stage.need(shape(6, 7, 1), part), need);
    }
}

/// Whether two stages are equal: exactly where the kinds and the patterns are.
fn same_stages(a: &Demosaic, b: &Demosaic) -> bool
    ensures { Decides result ((kind_of a.now ≡ kind_of b.now) × (cfa_of a.now ≡ cfa_of b.now)) }
{
    a == b
}

/// Stages of the same kind and pattern are equal, and none other.
#[test]
fn equal_stages(rt: HostRuntime) {
    let stage = Demosaic::new(Kind::Malvar, pattern(1));
    for (kind, i, want) in [
        (Kind::Malvar, 1, true),
        (Kind::Bilinear, 1, false),
        (Kind::Malvar, 0, false),
        (Kind::Malvar, 3, false),
    ] {
        let other = Demosaic::new(kind, pattern(i));
        assert_eq!(rt; same_stages(&stage, &other), want, "pattern {i}");
    }
}
