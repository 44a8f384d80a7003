//! The settings of a development.

use malvar::Kind;
use tone_table::Curve;

/// Which matrix leads from the camera's colours to those of the image.
#[derive(Clone, Copy, Debug, PartialEq, Eq)]
pub enum MatrixChoice {
    /// The frame's second forward matrix, else its first, else none.
    Auto,
    /// None: the camera's colours stay.
    Camera,
    /// The frame's first forward matrix.
    Forward1,
    /// The frame's second forward matrix.
    Forward2,
    /// These entries, row by row, in 65536ths; each is from -2^24 to 2^24.
    Own([i32; 9]),
}

/// The settings of a development.
#[derive(Clone, Copy, Debug, PartialEq, Eq)]
pub struct Settings {
    /// The version of the settings, which is 1.
    pub version: u8,
    /// The black level; `None` is the frame's own.
    pub black: Option<u16>,
    /// The white level, which isn't 0; `None` is the frame's own.
    pub white: Option<u16>,
    /// How the colours that a pixel lacks are found.
    pub demosaic: Kind,
    /// The gains of red, green and blue in 4096ths, from 1 to 2^20; `None` is the frame's own.
    pub wb: Option<[u32; 3]>,
    /// The exposure in 1024ths, up to 2^16.
    pub exposure: u32,
    /// The colour matrix.
    pub matrix: MatrixChoice,
    /// The tone curve.
    pub tone: Curve,
}

/// A new value of one setting, in the units of [`Settings`].
#[derive(Clone, Copy, Debug, PartialEq, Eq)]
pub enum Change {
    Black(Option<u16>),
    White(Option<u16>),
    Demosaic(Kind),
    Wb(Option<[u32; 3]>),
    Exposure(u32),
    Matrix(MatrixChoice),
    Tone(Curve),
}

impl Settings {
    ghost use Rattle.std.specs.Prelude.{◌≡◌};
    ghost use Rattle.dev_settings.specs.Ranges.{ChangeInRange, SettingsInRange};
    ghost use Rattle.dev_settings.specs.Settings.{changed, standard_settings};

    /// The settings where nothing is set.
    pub fn standard() -> Self
        ensures settings { result ≡ standard_settings }
        ensures in_range { SettingsInRange result }
    {
        Settings {
            version: 1,
            black: None,
            white: None,
            demosaic: Kind::Malvar,
            wb: None,
            exposure: 1024,
            matrix: MatrixChoice::Auto,
            tone: Curve::Linear,
        }
    }

    /// Makes a change: that setting is replaced, the others stay.
    pub fn apply(&mut self, change: &Change)
        ensures settings { self.new ≡ changed change.now self.old }
        ensures in_range { SettingsInRange self.old → ChangeInRange change.now → SettingsInRange self.new }
    {
        match *change {
            Change::Black(black) => self.black = black,
            Change::White(white) => self.white = white,
            Change::Demosaic(kind) => self.demosaic = kind,
            Change::Wb(gains) => self.wb = gains,
            Change::Exposure(exposure) => self.exposure = exposure,
            Change::Matrix(choice) => self.matrix = choice,
            Change::Tone(curve) => self.tone = curve,
        }
    }
}
