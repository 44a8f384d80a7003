//! The stages from camera colours to those of the image: white balance with exposure, and a colour matrix.
#![tactic(auto)]

mod balance;
mod digit_products;
mod factors;
mod matrix;
mod matrix_rows;

pub use balance::Balance;
pub use matrix::Matrix;
