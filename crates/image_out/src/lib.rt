//! Images as bytes, and the line that goes before the bytes of an image.
#![tactic(auto)]

mod piece;
mod tiff;

ghost use Rattle.std.specs.Prelude.{◌≡◌, ◌*◌, ◌≤◌, length};
ghost use Rattle.image_out.specs.Image.{ppm_head_of, reply_head_of, pixels_of};

use byteorder::{BigEndian, ByteOrder, LittleEndian};
use dev_settings::Format;
pub use piece::Piece;
use text_line::Line;
pub use tiff::{TIFF_HEAD, tiff_head};

/// The head of a binary portable pixmap of `w` columns and `h` rows.
#[tactic(auto, using(text_line::specs::Digits::decimal_within_ten))]
pub fn pixmap_head(w: u32, h: u32) -> Line
    ensures head { result ≡ ppm_head_of w h }
    ensures within { length result ≤ 32 }
{
    let mut head = Line::new();
    head.push(b"P6\n");
    head.push_number(u64::from(w));
    head.push_field(u64::from(h));
    head.push(b"\n65535\n");
    head
}

/// The line before an image of `n` bytes.
pub fn reply_line(n: u64) -> Line
    ensures line { result ≡ reply_head_of n }
    ensures within { length result ≤ 32 }
{
    let mut line = Line::new();
    line.push(b"image");
    line.push_field(n);
    line.end();
    line
}

/// Writes the bytes of the samples. `out` is twice as long as `samples`.
pub fn pixel_bytes(samples: &[u16], format: Format, out: &mut [u8])
    requires { length out.old ≡ 2 * length samples.now }
    ensures { out.new ≡ pixels_of format samples.now }
{
    match format {
        Format::Ppm => BigEndian::write_u16_into(samples, out),
        Format::Tiff => LittleEndian::write_u16_into(samples, out),
    }
}

#[cfg(test)]
mod tests;
