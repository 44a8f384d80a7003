//! What the words of the command line ask for.

ghost use Rattle.std.specs.Prelude.{◌≡◌, ◌^◌, ◌≤◌, ◌%◌};

/// What the words ask for.
#[derive(Drop)]
pub(crate) struct Options<'a> {
    /// The name of the frame's file.
    pub frame: &'a str,
    /// The name of the settings file, where one is named.
    pub settings: Option<&'a str>,
    /// How many samples may be kept, at most 2^30.
    pub budget: u32,
    /// The side of a cell in samples, from 16 to 512 in steps of 16.
    pub cell: u32,
    ghost few: { budget ≤ 2 ^ 30 },
    ghost least: { 16 ≤ cell },
    ghost most: { cell ≤ 512 },
    ghost multiple: { cell % 16 ≡ 0 },
}
