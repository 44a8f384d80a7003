//! The keys of settings.

ghost use Rattle.std.specs.Prelude.{◌≡◌};
ghost use Rattle.dev_settings.specs.Keys.{key_of, keys, name_of};

/// The key of a setting.
#[derive(Clone, Copy)]
pub(crate) enum Key {
    Black,
    White,
    Demosaic,
    Wb,
    Exposure,
    Matrix,
    Tone,
}

/// The key that a word names.
pub(crate) fn key_named(word: &[u8]) -> Option<Key>
    ensures { result ≡ key_of word.now }
{
    if word == b"black".as_slice() {
        Some(Key::Black)
    } else if word == b"white".as_slice() {
        Some(Key::White)
    } else if word == b"demosaic".as_slice() {
        Some(Key::Demosaic)
    } else if word == b"wb".as_slice() {
        Some(Key::Wb)
    } else if word == b"exposure".as_slice() {
        Some(Key::Exposure)
    } else if word == b"matrix".as_slice() {
        Some(Key::Matrix)
    } else if word == b"tone".as_slice() {
        Some(Key::Tone)
    } else {
        None
    }
}

/// All keys, in their order.
pub(crate) fn all_keys() -> [Key; 7]
    ensures { result ≡ keys }
{
    [
        Key::Black,
        Key::White,
        Key::Demosaic,
        Key::Wb,
        Key::Exposure,
        Key::Matrix,
        Key::Tone,
    ]
}

impl Key {
    /// The name of a key.
    pub fn name(self) -> &'static str
        ensures { result.now ≡ name_of self }
    {
        match self {
            Key::Black => "black",
            Key::White => "white",
            Key::Demosaic => "demosaic",
            Key::Wb => "wb",
            Key::Exposure => "exposure",
            Key::Matrix => "matrix",
            Key::Tone => "tone",
        }
    }
}
