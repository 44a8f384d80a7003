//! The formats of images.

ghost use Rattle.std.specs.Prelude.{◌≡◌};
ghost use Rattle.dev_settings.specs.Formats.{format_of};

/// The format of an image.
#[derive(Clone, Copy, Debug, PartialEq, Eq)]
pub enum Format {
    /// Binary portable pixmap (Netpbm's `P6`), with 16 bits a sample.
    Ppm,
    /// Tag image file (TIFF 6.0), uncompressed, with 16 bits a sample.
    Tiff,
}

impl Format {
    /// The format that a word names.
    pub(crate) fn named(word: &[u8]) -> Option<Self>
        ensures { result ≡ format_of word.now }
    {
        if word == b"ppm".as_slice() {
            Some(Format::Ppm)
        } else if word == b"tiff".as_slice() {
            Some(Format::Tiff)
        } else {
            None
        }
    }
}
