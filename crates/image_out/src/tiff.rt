//! The head of a tag image file (TIFF 6.0).

ghost use Rattle.std.specs.Prelude.{◌≡◌, ◌+◌, ◌*◌, ◌≤◌, [], ◌++◌, length};
ghost use Rattle.std.specs.Int.{to_le_bytes, w16, w32};
ghost use Rattle.std.specs.List.{flat_map};
ghost use Rattle.image_out.specs.Tiff.{entries_of, entry_bytes, tiff_head_of};

use std::marker::Model;

/// How many bytes the head of a tag image file has.
pub const TIFF_HEAD: usize = 180;

/// The type of numbers of 16 bits.
const SHORT: u16 = 3;

/// The type of numbers of 32 bits.
const LONG: u16 = 4;

/// The type of pairs of such numbers, a numerator and a denominator.
const RATIONAL: u16 = 5;

/// An entry of the directory: its number is its value, or the offset at which its value stands.
#[derive(Clone, Copy)]
pub(crate) struct Entry {
    tag: u16,
    kind: u16,
    count: u32,
    number: u32,
}

/// A head that is being put together. Contracts see it as the list of its bytes so far.
#[derive(Drop)]
pub(crate) struct Head {
    bytes: [u8; TIFF_HEAD],
    used: usize,
}

impl Model for Head {
    ghost use Rattle.std.specs.Prelude.{ℕ, ◌≤◌, List, take};

    ghost Value = { List ℕ };

    ghost view = { λ head. take head.used head.bytes };

    ghost invariant = { λ head. head.used ≤ 180 };
}

impl Head {
    /// A head with no bytes.
    fn new() -> Self
        ensures { result ≡ [] }
    {
        Head {
            bytes: [0; TIFF_HEAD],
            used: 0,
        }
    }

    /// Appends bytes.
    fn push(&mut self, bytes: &[u8])
        requires { length self.old + length bytes.now ≤ 180 }
        ensures bytes { self.new ≡ self.old ++ bytes.now }
        ensures length { length self.new ≡ length self.old + length bytes.now }
    {
        let end = self.used + bytes.len();
        self.bytes[self.used..end].copy_from_slice(bytes);
        self.used = end;
    }

    /// Appends a number of 16 bits, the least significant byte first.
    fn push_short(&mut self, n: u16)
        requires { length self.old + 2 ≤ 180 }
        ensures bytes { self.new ≡ self.old ++ to_le_bytes w16 n }
        ensures length { length self.new ≡ length self.old + 2 }
    {
        self.push(&n.to_le_bytes());
    }

    /// Appends a number of 32 bits, the least significant byte first.
    fn push_long(&mut self, n: u32)
        requires { length self.old + 4 ≤ 180 }
        ensures bytes { self.new ≡ self.old ++ to_le_bytes w32 n }
        ensures length { length self.new ≡ length self.old + 4 }
    {
        self.push(&n.to_le_bytes());
    }

    /// Appends an entry of the directory.
    fn push_entry(&mut self, entry: &Entry)
        requires { length self.old + 12 ≤ 180 }
        ensures bytes { self.new ≡ self.old ++ entry_bytes entry.now }
        ensures length { length self.new ≡ length self.old + 12 }
    {
        self.push_short(entry.tag);
        self.push_short(entry.kind);
        self.push_long(entry.count);
        self.push_long(entry.number);
    }

    /// Appends the entries of the directory.
    fn push_entries(&mut self, entries: &[Entry])
        requires { length self.old + 12 * length entries.now ≤ 180 }
        ensures bytes { self.new ≡ self.old ++ flat_map entry_bytes entries.now }
        ensures length { length self.new ≡ length self.old + 12 * length entries.now }
    {
        for entry in entries {
            self.push_entry(entry);
        }
    }
}

/// An entry with its fields.
fn field(tag: u16, kind: u16, count: u32, number: u32) -> Entry
    ensures { result ≡ record { tag = tag; kind = kind; count = count; number = number } }
{
    Entry {
        tag,
        kind,
        count,
        number,
    }
}

/// The entries of the directory of an image of `w` columns and `h` rows.
fn entries(w: u32, h: u32) -> [Entry; 12]
    requires cols { w ≤ 8192 }
    requires rows { h ≤ 8192 }
    ensures { result ≡ entries_of w h }
{
    [
        // ImageWidth, ImageLength, BitsPerSample
        field(256, LONG, 1, w),
        field(257, LONG, 1, h),
        field(258, SHORT, 3, 158),
        // Compression: none; PhotometricInterpretation: RGB
        field(259, SHORT, 1, 1),
        field(262, SHORT, 1, 2),
        // StripOffsets, SamplesPerPixel, RowsPerStrip, StripByteCounts
        field(273, LONG, 1, 180),
        field(277, SHORT, 1, 3),
        field(278, LONG, 1, h),
        field(279, LONG, 1, h * (6 * w)),
        // XResolution, YResolution; ResolutionUnit: the inch
        field(282, RATIONAL, 1, 164),
        field(283, RATIONAL, 1, 172),
        field(296, SHORT, 1, 2),
    ]
}

/// Writes the head of a tag image file of `w` columns and `h` rows, red, green and blue of each pixel in 16 bits each.
/// The samples stand behind it, the least significant byte of each first.
#[tactic(auto, unfolding(crate::specs::Tiff::tiff_head_of))]
pub fn tiff_head(w: u32, h: u32, out: &mut [u8; TIFF_HEAD])
    requires cols { w ≤ 8192 }
    requires rows { h ≤ 8192 }
    ensures { out.new ≡ tiff_head_of w h }
{
    let mut head = Head::new();
    head.push(b"II\x2a\x00\x08\x00\x00\x00\x0c\x00");
    head.push_entries(&entries(w, h));
    head.push(&[0; 4]);
    head.push(&[16, 0, 16, 0, 16, 0]);
    head.push(&[72, 0, 0, 0, 1, 0, 0, 0, 72, 0, 0, 0, 1, 0, 0, 0]);
    *out = head.bytes;
}
