//! Tone curves and their tables: samples by hand from the formulas, and parts of a plane against the whole.

use super::trial::{self, fill_with_noise, parts, rect, shape};
use stage_core::Stage;
use std::test::Fail;
use tone_table::{Curve, Knots, Tone};

#[test]
fn takes_knots_and_nothing_else(rt: HostRuntime) {
    let three = [(0, 65535), (1, 0), (65535, 7)];
    assert!(rt; Knots::new(&three).is_some());
    for points in [
        [(1, 0), (2, 0), (65535, 0)],
        [(0, 0), (2, 0), (65534, 0)],
        [(0, 0), (0, 5), (65535, 0)],
        [(0, 0), (65535, 0), (65535, 1)],
        [(0, 0), (65535, 9), (3, 9)],
    ] {
        assert!(rt; Knots::new(&points).is_none());
    }
    assert!(rt; Knots::new(&three[..1]).is_none());
    assert!(rt; Knots::new(&[]).is_none());
    assert!(rt; Knots::new(&[(0, 3), (65535, 2)]).is_some());
}

#[test]
fn takes_at_most_sixteen(rt: HostRuntime) {
    let mut points = [(0, 0); 17];
    for at in 0..15 {
        points[at].0 = at as u16;
    }
    points[15].0 = u16::MAX;
    points[16].0 = u16::MAX;
    assert!(rt; Knots::new(&points[..16]).is_some());
    points[15].0 = 15;
    assert!(rt; Knots::new(&points).is_none());
}

#[test]
fn keeps_the_points(rt: HostRuntime) -> Result<(), Fail> {
    let points = [(0, 5), (300, 1), (65535, 2)];
    let knots = Knots::new(&points).ok_or("knots")?;
    assert_eq!(rt; knots.points(), points.as_slice());
    assert!(rt; Curve::Knots(knots) != Curve::Linear);
    assert!(rt; Knots::new(&[(0, 5), (65535, 2)]) != Some(knots));
    Ok(())
}

/// What a tone makes of a pixel.
fn pixel_of(tone: &Tone, pixel: [u16; 3]) -> Option<[u16; 3]> {
    trial::pixel(tone, &pixel, shape(1, 1, 3), 0, 0)
}

/// A linear tone leaves samples; the root of 16384 * 65535 is 32767.5, that of 65535 is 255.998.
#[test]
fn linear_and_root(rt: HostRuntime) -> Result<(), Fail> {
    let linear = Tone::new(rt.alloc(), &Curve::Linear)?;
    assert_eq!(rt; pixel_of(&linear, [0, 777, 65535]), Some([0, 777, 65535]));
    let root = Tone::new(rt.alloc(), &Curve::Root)?;
    assert_eq!(rt; pixel_of(&root, [16384, 0, 65535]), Some([32767, 0, 65535]));
    assert_eq!(rt; pixel_of(&root, [1, 2, 65534]), Some([255, 362, 65534]));
    assert!(rt; root == root);
    assert!(rt; root != linear);
    Ok(())
}

/// Lines that rise and fall, rounded down, and the last knot's own place.
#[test]
fn lines_between_knots(rt: HostRuntime) -> Result<(), Fail> {
    let steep = Knots::new(&[(0, 0), (65535, 1)]).ok_or("knots")?;
    let steep = Tone::new(rt.alloc(), &Curve::Knots(steep))?;
    assert_eq!(rt; pixel_of(&steep, [0, 65534, 65535]), Some([0, 0, 1]));
    // 10 + 2 * 5 / 3 is 13.3, 15 - 1 * 4 / 7 is 14.4, 15 - 5 * 4 / 7 is 12.1, 11 - 1 / 65525 rounds down to 10
    let bent = Knots::new(&[(0, 10), (3, 15), (10, 11), (65535, 10)]).ok_or("knots")?;
    let bent = Tone::new(rt.alloc(), &Curve::Knots(bent))?;
    assert_eq!(rt; pixel_of(&bent, [0, 2, 3]), Some([10, 13, 15]));
    assert_eq!(rt; pixel_of(&bent, [4, 8, 10]), Some([14, 12, 11]));
    assert_eq!(rt; pixel_of(&bent, [11, 65534, 65535]), Some([10, 10, 10]));
    assert!(rt; !bent.is_same(&steep));
    Ok(())
}

/// Two tones of other curves are equal where their tables are.
#[test]
fn equal_tables(rt: HostRuntime) -> Result<(), Fail> {
    let linear = Tone::new(rt.alloc(), &Curve::Linear)?;
    let straight = Knots::new(&[(0, 0), (65535, 65535)]).ok_or("knots")?;
    let straight = Tone::new(rt.alloc(), &Curve::Knots(straight))?;
    assert!(rt; linear.is_same(&straight));
    let bent = Knots::new(&[(0, 0), (7, 8), (65535, 65535)]).ok_or("knots")?;
    let bent = Tone::new(rt.alloc(), &Curve::Knots(bent))?;
    assert!(rt; !linear.is_same(&bent));
    Ok(())
}

/// Every rectangle of a plane is the part of the whole that lies there, 3 * 4 / 2 by 4 * 5 / 2; and the shapes.
#[test]
fn parts_of_a_plane(rt: HostRuntime) -> Result<(), Fail> {
    let root = Tone::new(rt.alloc(), &Curve::Root)?;
    let plane = shape(3, 4, 3);
    let mut samples = [0; 36];
    fill_with_noise(&mut samples);
    assert_eq!(rt; parts(&root, &samples, plane, plane), 60);
    assert_eq!(rt; root.shape(plane), Some(plane));
    assert_eq!(rt; root.shape(shape(3, 4, 1)), None);
    let part = rect(1, 2, 3, 3);
    assert_eq!(rt; root.need(plane, part), part);
    Ok(())
}
