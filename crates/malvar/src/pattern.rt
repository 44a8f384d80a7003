//! The colour filter array of 2 by 2 (DNG 1.6, CFAPattern).

ghost use Rattle.std.specs.Prelude.{◌≡◌};
ghost use Rattle.malvar.specs.inner.Around.{even_site, odd_site, own_colour, next_colour};
ghost use Rattle.malvar.specs.Pattern.{colour_at, IsBayer};

use crate::filters::RowSites;

/// One of the four patterns, by the colours of its first row and then those of its second.
#[derive(Clone, Copy, Debug, PartialEq, Eq)]
pub(crate) enum Pattern {
    RedGreenGreenBlue,
    BlueGreenGreenRed,
    GreenRedBlueGreen,
    GreenBlueRedGreen,
}

impl Pattern {
    ghost use Rattle.malvar.specs.Mosaics.{colours_of};

    /// The pattern of these colours.
    pub(crate) fn new(cfa: [u8; 4]) -> Pattern
        requires { IsBayer cfa }
        ensures { colours_of result ≡ cfa }
    {
        match (cfa[0], cfa[1]) {
            (0, _) => Pattern::RedGreenGreenBlue,
            (2, _) => Pattern::BlueGreenGreenRed,
            (_, 0) => Pattern::GreenRedBlueGreen,
            _ => Pattern::GreenBlueRedGreen,
        }
    }

    /// The sites of row `r`.
    pub(crate) fn sites(self, r: u32) -> RowSites
        ensures even { own_colour (even_site result) ≡ colour_at (colours_of self) r 0 }
        ensures even_next { next_colour (even_site result) ≡ colour_at (colours_of self) r 1 }
        ensures odd { own_colour (odd_site result) ≡ colour_at (colours_of self) r 1 }
        ensures odd_next { next_colour (odd_site result) ≡ colour_at (colours_of self) r 0 }
    {
        let even = r % 2 == 0;
        match self {
            Pattern::RedGreenGreenBlue if even => RowSites::RedGreen,
            Pattern::RedGreenGreenBlue => RowSites::GreenBlue,
            Pattern::BlueGreenGreenRed if even => RowSites::BlueGreen,
            Pattern::BlueGreenGreenRed => RowSites::GreenRed,
            Pattern::GreenRedBlueGreen if even => RowSites::GreenRed,
            Pattern::GreenRedBlueGreen => RowSites::BlueGreen,
            Pattern::GreenBlueRedGreen if even => RowSites::GreenBlue,
            Pattern::GreenBlueRedGreen => RowSites::RedGreen,
        }
    }
}
