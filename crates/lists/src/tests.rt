//! Lists of numbers, of pairs, of plain structs and of structs with a model, and a struct that holds lists.

ghost use Rattle.std.specs.Prelude.{◌≡◌, ◌↔◌, IsTrue};
ghost use Rattle.std.specs.Bool.{Decides};

use super::*;
use std::test::Fail;

/// A part of a file.
#[derive(Clone, Copy, Debug, PartialEq, Eq)]
pub struct Segment {
    pub at: u32,
    pub length: u32,
}

/// A number seen as itself.
#[derive(Clone, Copy, Debug, PartialEq, Eq)]
pub struct Level {
    level: i32,
}

impl Model for Level {
    ghost use Rattle.std.specs.Prelude.{ℤ};

    ghost Value = { ℤ };

    ghost view = { λ level. level.level };

    ghost inverse = { λ level. record { level = level } };
}

/// Something that holds lists.
#[derive(Debug, Drop, PartialEq, Eq)]
pub struct Frame {
    pub depth: u16,
    pub table: Items<u16>,
    pub segments: Items<Segment>,
    pub levels: Items<Level>,
}

/// Contracts see the fields as lists.
fn made_frame(depth: u16, table: Vec<u16>, segments: Vec<Segment>, levels: Vec<Level>) -> Frame
    ensures { result ≡ record { depth = depth; table = table.items; segments = segments.items; levels = levels.items } }
{
    Frame {
        depth,
        table: Items::from_vec(table),
        segments: Items::from_vec(segments),
        levels: Items::from_vec(levels),
    }
}

/// Where the elements' comparison tells all elements apart, that of the lists tells all lists apart.
fn same_lists<T: PartialEq>(a: &Items<T>, b: &Items<T>) -> bool
    requires { (x y : T) → Decides (T.eq x y) (x ≡ y) }
    ensures { Decides result (a.now ≡ b.now) }
{
    a == b
}

fn same_numbers(a: &Items<u16>, b: &Items<u16>) -> bool
    ensures { IsTrue result ↔ (a.now ≡ b.now) }
{
    a == b
}

fn same_signed_numbers(a: &Items<i32>, b: &Items<i32>) -> bool
    ensures { IsTrue result ↔ (a.now ≡ b.now) }
{
    a == b
}

fn same_pairs(a: &Items<(u32, u32)>, b: &Items<(u32, u32)>) -> bool
    ensures { Decides result (a.now ≡ b.now) }
{
    same_lists(a, b)
}

fn same_segments(a: &Items<Segment>, b: &Items<Segment>) -> bool
    ensures { Decides result (a.now ≡ b.now) }
{
    same_lists(a, b)
}

fn same_levels(a: &Items<Level>, b: &Items<Level>) -> bool
    ensures { Decides result (a.now ≡ b.now) }
{
    same_lists(a, b)
}

#[test]
fn compares(rt: HostRuntime) -> Result<(), Fail> {
    let alloc = rt.alloc();
    for (a, b, want) in [
        ([].as_slice(), [].as_slice(), true),
        (&[], &[7], false),
        (&[7, 8], &[7, 8], true),
        (&[7, 8], &[7, 9], false),
        (&[7, 8], &[7, 8, 8], false),
    ] {
        let (a, b) = (Items::from_slice(alloc, a)?, Items::from_slice(alloc, b)?);
        assert_eq!(rt; same_numbers(&a, &b), want);
    }
    Ok(())
}
