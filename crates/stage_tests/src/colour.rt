//! Samples by hand from the formulas, and parts of a plane against the whole.

use super::trial::{fill_with_noise, parts, pixel, rect, shape};
use colour_matrix::{Balance, Matrix};
use stage_core::Stage;

/// What a stage makes of a pixel.
fn pixel_of<S: Stage>(stage: &S, samples: [u16; 3]) -> Option<[u16; 3]> {
    pixel(stage, &samples, shape(1, 1, 3), 0, 0)
}

/// Gains and an exposure.
fn balance(kind: u32) -> Balance {
    match kind {
        0 => Balance::new([8192, 4096, 6144], 1024),
        1 => Balance::new([4096, 4096, 4096], 512),
        2 => Balance::new([4096, 4096, 4096], 511),
        3 => Balance::new([1_048_576, 1_048_576, 1], 65536),
        4 => Balance::new([1_048_576, 1_048_576, 1], 0),
        5 => Balance::new([65536, 65535, 1_048_576], 1024),
        6 => Balance::new([16385, 16384, 4097], 1024),
        _ => Balance::new([5000, 4096, 7001], 1500),
    }
}

/// Balanced pixels: rounded to the nearest number, a half up, and held within 65535.
#[test]
fn balanced_pixels(rt: HostRuntime) {
    for (kind, pixel, want) in [
        (0, [30000, 30000, 30000], [60000, 30000, 45000]),
        (0, [40000, 40000, 1], [65535, 40000, 2]),
        (1, [1, 2, 3], [1, 1, 2]),
        (2, [1, 2, 3], [0, 1, 1]),
        (3, [1, 4, 64], [16384, 65535, 1]),
        (3, [0, 3, 65535], [0, 49152, 1024]),
        (4, [65535, 1, 65535], [0, 0, 0]),
        // 1000 * 5000 * 1500 / 2^22 is 1788.1, 1000 * 1500 / 1024 is 1464.8, 1000 * 7001 * 1500 / 2^22 is 2503.75
        (7, [1000, 1000, 1000], [1788, 1465, 2504]),
        (5, [1, 1, 1], [16, 16, 256]),
        (5, [4096, 4097, 255], [65535, 65535, 65280]),
        // 16383 * 16385 is 2^28 - 1
        (6, [16383, 16384, 65535], [65535, 65535, 65535]),
        (6, [16382, 16383, 1], [65532, 65532, 1]),
    ] {
        assert_eq!(rt;
            pixel_of(&balance(kind), pixel),
            Some(want),
            "balance {kind}"
        );
    }
}

/// Matrices.
fn matrix(kind: u32) -> Matrix {
    match kind {
        0 => Matrix::camera(),
        1 => Matrix::forward(&[65536, 0, 0, 0, 65536, 0, 0, 0, 65536]),
        // red of green, green of blue, blue of red
        2 => Matrix::new([0, 65536, 0, 0, 0, 65536, 65536, 0, 0]),
        // halves, and a negative sum
        3 => Matrix::new([32768, 0, 0, -32768, 65536, 0, -65536, 0, 32768]),
        4 => Matrix::new([16_777_216, 0, 0, -16_777_216, 0, 0, 0, 0, 1]),
        _ => Matrix::forward(&[1250, 1251, 0, 0, 0, 0, 0, 0, 1_048_576]),
    }
}

/// Pixels that a matrix maps: rounded to the nearest number, a half up, and held within 0 and 65535.
#[test]
fn mapped_pixels(rt: HostRuntime) {
    for (kind, pixel, want) in [
        (0, [65535, 1, 40000], [65535, 1, 40000]),
        (1, [1000, 1000, 1000], [1026, 971, 1248]),
        (2, [7, 60000, 65535], [60000, 65535, 7]),
        (3, [3, 2, 1], [2, 1, 0]),
        (3, [1, 1, 3], [1, 1, 1]),
        (4, [1, 0, 65535], [256, 0, 1]),
        (4, [65535, 65535, 32767], [65535, 0, 0]),
    ] {
        assert_eq!(rt; pixel_of(&matrix(kind), pixel), Some(want), "matrix {kind}");
    }
}

/// The entries of products with a forward matrix: -9788 * 1250 is -1223.5 ten thousands, -9788 * 1251 -1224.5.
#[test]
fn forward_entries(rt: HostRuntime) {
    assert!(rt;
        matrix(1).is_same(&Matrix::new([
            205_383, -105_965, -32152, -64147, 125_574, 2195, 4712, -15008, 92091
        ]))
    );
    assert!(rt;
        matrix(5).is_same(&Matrix::new([
            3917, 3921, -514_431, -1223, -1224, 35127, 90, 90, 1_473_459
        ]))
    );
}

/// Stages are equal where their parameters are, also where products of other parameters are.
#[test]
fn equal_stages(rt: HostRuntime) {
    for kind in 0..5 {
        assert!(rt; balance(kind) == balance(kind));
        assert!(rt; balance(kind) != balance(kind.wrapping_add(1)));
        assert!(rt; matrix(kind) == matrix(kind));
        assert!(rt; matrix(kind) != matrix(kind.wrapping_add(1)));
    }
    let twice = Balance::new([8192; 3], 512);
    assert!(rt; Balance::new([4096; 3], 1024) != twice);
    assert!(rt; !twice.is_same(&Balance::new([8192; 3], 511)));
    assert!(rt; !matrix(0).is_same(&Matrix::new([65536, 0, 0, 0, 65536, 0, 0, 0, 65535])));
}

/// How many rectangles of a plane of 3 rows and 4 columns are the parts of the whole.
fn parts_of<S: Stage>(stage: &S) -> u32 {
    let plane = shape(3, 4, 3);
    let mut samples = [0; 36];
    fill_with_noise(&mut samples);
    parts(stage, &samples, plane, plane)
}

/// Every rectangle of a plane is the part of the whole that lies there: 3 * 4 / 2 by 4 * 5 / 2.
#[test]
fn parts_of_a_plane(rt: HostRuntime) {
    assert_eq!(rt; parts_of(&balance(7)), 60);
    assert_eq!(rt; parts_of(&balance(0)), 60);
    assert_eq!(rt; parts_of(&matrix(3)), 60);
}

/// The shapes that are taken, and what a rectangle needs.
#[test]
fn shapes_and_needs(rt: HostRuntime) {
    let (one, three) = (shape(3, 4, 1), shape(3, 4, 3));
    let part = rect(1, 2, 3, 3);
    assert_eq!(rt; balance(0).shape(three), Some(three));
    assert_eq!(rt; balance(0).shape(one), None);
    assert_eq!(rt; balance(0).need(three, part), part);
    assert_eq!(rt; matrix(0).shape(three), Some(three));
    assert_eq!(rt; matrix(0).shape(one), None);
    assert_eq!(rt; matrix(0).need(three, part), part);
}
