//! The matrices that settings name.

ghost use Rattle.std.specs.Prelude.{◌≡◌, option_map};
ghost use Rattle.dng_tags.specs.Facts.{AreColours, IsMatrix};
ghost use Rattle.colour_matrix.specs.Matrices.{forward_matrix};
ghost use Rattle.dev_settings.specs.Ranges.{MatrixInRange};
ghost use Rattle.dev_stages.specs.Plans.{auto_matrix, chosen_matrix};

use colour_matrix::Matrix;
use dev_settings::MatrixChoice;
use dng_tags::Colour;

/// The matrix by which the frame's colours become those of the image where the settings don't say: its second forward
/// matrix, else its first, else none.
fn auto_matrix(colour: &Colour) -> Matrix
    requires { AreColours colour.now }
    ensures { result ≡ auto_matrix colour.now }
{
    match (&colour.forward2, &colour.forward1) {
        (Some(forward), _) | (None, Some(forward)) => Matrix::forward(forward),
        (None, None) => Matrix::camera(),
    }
}

/// The matrix of a forward matrix, where there is one.
fn forward_matrix(forward: &Option<[i32; 9]>) -> Option<Matrix>
    requires { IsMatrix forward.now }
    ensures { result ≡ option_map forward_matrix forward.now }
{
    match forward {
        Some(forward) => Some(Matrix::forward(forward)),
        None => None,
    }
}

/// The matrix of a choice, or `None` where the frame doesn't have the one that it names.
pub(crate) fn chosen_matrix(colour: &Colour, choice: &MatrixChoice) -> Option<Matrix>
    requires colour { AreColours colour.now }
    requires choice { MatrixInRange choice.now }
    ensures { result ≡ chosen_matrix colour.now choice.now }
{
    match choice {
        MatrixChoice::Auto => Some(auto_matrix(colour)),
        MatrixChoice::Camera => Some(Matrix::camera()),
        MatrixChoice::Forward1 => forward_matrix(&colour.forward1),
        MatrixChoice::Forward2 => forward_matrix(&colour.forward2),
        MatrixChoice::Own(entries) => Some(Matrix::new(*entries)),
    }
}
