//! Markers and the segments behind them (ITU-T T.81, B.1.1).

ghost use Rattle.std.specs.Prelude.{◌≡◌, ◌+◌, ◌≤◌, ◌<◌, length, slice_index, IfOk};
ghost use Rattle.ljpeg_predict.specs.inner.Answers.{Gives};
ghost use Rattle.ljpeg_predict.specs.Segments.{body_at, code_at, kind_of, marker_at, number_at};

use crate::JpegFault;
use crate::headers::FrameHeader;

/// What a segment tells.
#[derive(Clone, Copy)]
pub(crate) enum Kind {
    /// The frame header of the lossless process, SOF3.
    Frame,
    /// Tables of code words, DHT.
    Tables,
    /// The restart interval, DRI.
    RestartInterval,
    /// Nothing that counts here.
    PassedOver,
    /// The header of the scan of a frame, SOS.
    Scan(FrameHeader),
}

/// The marker that bytes begin with, and the bytes behind it.
#[tactic(auto, unfolding(crate::specs::Segments::marker_at))]
pub(crate) fn read_marker(bytes: &[u8]) -> Result<(u8, &[u8]), JpegFault>
    ensures gives { Gives (λ found. (found.0, found.1.now)) result (marker_at bytes.now) }
    ensures shorter { IfOk result (λ found. length found.1.now + 2 ≤ length bytes.now) }
{
    let Some((byte, rest)) = bytes.split_first() else {
        return Err(JpegFault::Ended);
    };
    if *byte != 0xff {
        return Err(JpegFault::Marker { byte: *byte });
    }
    read_code(rest)
}

/// The byte behind an FF and any fill bytes, and the bytes behind it.
#[tactic(auto, unfolding(crate::specs::Segments::code_at))]
fn read_code(bytes: &[u8]) -> Result<(u8, &[u8]), JpegFault>
    ensures gives { Gives (λ found. (found.0, found.1.now)) result (code_at bytes.now) }
    ensures shorter { IfOk result (λ found. length found.1.now + 1 ≤ length bytes.now) }
{
    let mut rest = bytes;
    while let Some((byte, behind)) = rest.split_first() {
        if *byte != 0xff {
            return Ok((*byte, behind));
        }
        rest = behind;
    }
    Err(JpegFault::Ended)
}

/// The kind of a marker's segment, behind a frame header if one was told.
#[tactic(auto, unfolding(crate::specs::Segments::kind_of))]
pub(crate) fn segment_kind(frame: Option<FrameHeader>, marker: u8) -> Result<Kind, JpegFault>
    ensures { result ≡ kind_of frame marker }
{
    match marker {
        0xc0..=0xc2 | 0xc5..=0xc7 | 0xc9..=0xcb | 0xcd..=0xcf => {
            Err(JpegFault::NotLossless { marker })
        }
        0xc3 if frame.is_none() => Ok(Kind::Frame),
        0xc4 => Ok(Kind::Tables),
        0xda => match frame {
            Some(frame) => Ok(Kind::Scan(frame)),
            None => Err(JpegFault::Marker { byte: marker }),
        },
        0xdd => Ok(Kind::RestartInterval),
        0xdb | 0xe0..=0xef | 0xfe => Ok(Kind::PassedOver),
        _ => Err(JpegFault::Marker { byte: marker }),
    }
}

/// The body of the segment behind a marker, and the bytes behind it.
#[tactic(auto, unfolding(crate::specs::Segments::body_at))]
pub(crate) fn read_body(bytes: &[u8]) -> Result<(&[u8], &[u8]), JpegFault>
    ensures gives { Gives (λ found. (found.0.now, found.1.now)) result (body_at bytes.now) }
    ensures shorter { IfOk result (λ found. length found.1.now ≤ length bytes.now) }
{
    if bytes.len() < 2 {
        return Err(JpegFault::Ended);
    }
    let length = usize::from(number(bytes, 0));
    if length < 2 {
        return Err(JpegFault::HeaderLength);
    }
    if bytes.len() < length {
        return Err(JpegFault::Ended);
    }
    Ok((&bytes[2..length], &bytes[length..]))
}

/// The number in the two bytes at a place, the more significant one first.
pub(crate) fn number(bytes: &[u8], place: usize) -> u16
    requires { place + 1 < length bytes.now }
    ensures { result ≡ number_at bytes.now place }
{
    u16::from_be_bytes([bytes[place], bytes[place + 1]])
}

/// The byte at a place, 0 where there is none.
pub(crate) fn byte_or_zero(bytes: &[u8], place: usize) -> u8
    ensures { result ≡ slice_index bytes.now place }
{
    bytes.get(place).copied().unwrap_or(0)
}
