//! Rectangles, reflection, and parts of planes lent for reading and for writing.

ghost use Rattle.std.specs.Prelude.{◌≡◌};

use super::*;

const MAX: u32 = u32::MAX;

fn rect(top: u32, left: u32, bottom: u32, right: u32) -> Rect
    ensures { result ≡ record { top = top; left = left; bottom = bottom; right = right } }
{
    Rect {
        top,
        left,
        bottom,
        right,
    }
}

#[test]
fn meets(rt: HostRuntime) {
    let cases = [
        (rect(0, 0, 4, 4), rect(2, 1, 6, 3), Some(rect(2, 1, 4, 3))),
        (rect(0, 0, 2, 2), rect(2, 0, 4, 2), None),
        (rect(0, 0, 2, 2), rect(0, 2, 2, 4), None),
        (rect(3, 3, 3, 9), rect(0, 0, 9, 9), None),
        (
            rect(0, 0, MAX, MAX),
            rect(MAX - 1, 7, MAX, MAX),
            Some(rect(MAX - 1, 7, MAX, MAX)),
        ),
    ];
    for (a, b, both) in cases {
        assert_eq!(rt; a.meet(&b), both);
        assert_eq!(rt; b.meet(&a), both);
    }
}

#[test]
fn grows_and_contains(rt: HostRuntime) {
    let whole = rect(0, 0, 5, 9);
    let cases = [
        (rect(2, 3, 4, 5), 0, rect(2, 3, 4, 5)),
        (rect(2, 3, 4, 5), 2, rect(0, 1, 5, 7)),
        (rect(2, 3, 4, 5), MAX, rect(0, 0, 5, 9)),
        (rect(0, 0, MAX, MAX), 1, rect(0, 0, 5, 9)),
    ];
    for (r, by, grown) in cases {
        assert_eq!(rt; r.grow(by, &whole), grown);
    }
    let cases = [
        (rect(1, 1, 5, 9), true),
        (rect(1, 1, 6, 9), false),
        (rect(1, 1, 5, 10), false),
        (rect(7, 20, 7, 30), true),
        (rect(0, 0, MAX, MAX), false),
    ];
    for (r, inside) in cases {
        assert_eq!(rt; whole.contains(&r), inside);
    }
}

#[test]
fn measures_and_shifts(rt: HostRuntime) {
    let cases = [
        (rect(1, 2, 4, 7), 15),
        (rect(5, 5, 5, 9), 0),
        (rect(5, 0, 3, 9), 0),
        (rect(0, 0, MAX, MAX), 18_446_744_065_119_617_025),
    ];
    for (r, area) in cases {
        assert_eq!(rt; r.area(), area);
    }
    assert_eq!(rt;
        rect(0, 0, 1, 1).shift(MAX - 1, 2),
        rect(MAX - 1, 2, MAX, 3)
    );
    let shape = Shape {
        rows: 4,
        cols: 6,
        planes: 3,
    };
    assert_eq!(rt; shape.rect(), rect(0, 0, 4, 6));
}

#[test]
fn cuts(rt: HostRuntime) {
    let shape = Shape {
        rows: 5,
        cols: 7,
        planes: 1,
    };
    assert_eq!(rt; shape.part_count(2, 3), 9);
    assert_eq!(rt; shape.part_count(5, 7), 1);
    let cases = [
        (0, rect(0, 0, 2, 3)),
        (2, rect(0, 6, 2, 7)),
        (4, rect(2, 3, 4, 6)),
        (8, rect(4, 6, 5, 7)),
    ];
    for (k, part) in cases {
        if k < 9 {
            assert_eq!(rt; shape.part(2, 3, k), part);
        }
    }
    assert_eq!(rt; shape.part(MAX, MAX, 0), shape.rect());
}

#[test]
fn reflects(rt: HostRuntime) {
    for (i, row) in [(-2, 2), (-1, 1), (0, 0), (3, 3), (4, 2), (5, 1)] {
        if i >= -2 && i <= 5 {
            assert_eq!(rt; reflect(i, 4), row);
        }
    }
}

#[test]
fn views(rt: HostRuntime) {
    let samples = [0, 1, 2, 3, 4, 5, 6, 7, 8, 9, 10, 11];
    let view = View::new(rect(10, 20, 12, 22), 3, &samples);
    assert_eq!(rt; view.rect(), rect(10, 20, 12, 22));
    assert_eq!(rt; view.planes(), 3);
    assert_eq!(rt; view.at(11, 21, 2), 11);
    assert!(rt; view.row(11) == &samples[6..]);
    let part = view.sub(rect(11, 21, 12, 22));
    assert_eq!(rt; part.at(11, 21, 0), 9);
    assert!(rt; part.row(11) == &samples[9..]);
    assert!(rt; view.row_part(10, 20, 21) == &samples[..3]);
    assert!(rt; part.row_part(11, 22, 22).is_empty());
    let one = [65535];
    assert_eq!(rt; View::new(rect(0, 0, 1, 1), 1, &one).at(0, 0, 0), 65535);
}

#[test]
fn tiles(rt: HostRuntime) {
    let mut samples = [0; 12];
    let mut tile = TileMut::new(rect(0, 0, 3, 4), 1, &mut samples);
    assert_eq!(rt; tile.rect(), rect(0, 0, 3, 4));
    assert_eq!(rt; tile.planes(), 1);
    tile.put(1, 2, 0, 7);
    tile.write_row(2, |row| row.fill(5));
    tile.copy_from(&View::new(rect(0, 3, 2, 6), 1, &[1, 2, 3, 4, 5, 6]));
    tile.focus(rect(0, 0, 1, 2));
    tile.write_row(0, |row| row.fill(8));
    assert!(rt; samples == [8, 8, 0, 1, 0, 0, 7, 4, 5, 5, 5, 5]);

    let mut rows = [0; 8];
    write_slice(rect(0, 0, 2, 4), 1, &mut rows, |r, row| row.fill(r as u16));
    assert!(rt; rows == [0, 0, 0, 0, 1, 1, 1, 1]);

    let mut pixel = [0; 3];
    TileMut::new(rect(7, 7, 8, 8), 3, &mut pixel).put(7, 7, 1, 9);
    assert!(rt; pixel == [0, 9, 0]);
}
