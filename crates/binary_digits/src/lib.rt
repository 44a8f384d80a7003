//! Binary digits of numbers and of bytes, most significant first: definitions and laws.
#![tactic(auto)]

ghost use Rattle.std.specs.Prelude.{ℕ, List, Bool, ◌≡◌, ◌+◌, ◌*◌, ◌/◌, ◌^◌, ◌<◌, ◌++◌, length};
ghost use Rattle.binary_digits.specs.Digits.{bits_of, byte_bits, number_of};

/// A number is the one that its digits spell, where they are enough.
pub fn number_of_its_digits()
    ensures { (size number : ℕ) → number < 2 ^ size → number_of (bits_of size number) ≡ number }
{}

/// Digits are those of the number that they spell, which is below 2 to the power of their count.
pub fn digits_of_their_number()
    ensures same { (digits : List Bool) → bits_of (length digits) (number_of digits) ≡ digits }
    ensures below { (digits : List Bool) → number_of digits < 2 ^ length digits }
{}

/// A number has as many digits as were asked for, eight for each byte.
pub fn digit_count()
    ensures number { (size number : ℕ) → length (bits_of size number) ≡ size }
    ensures bytes { (bytes : List ℕ) → length (byte_bits bytes) ≡ 8 * length bytes }
{}

/// The upper digits stand before the lower ones.
pub fn upper_digits_first()
    ensures { (upper lower number : ℕ)
        → bits_of (upper + lower) number ≡ bits_of upper (number / 2 ^ lower) ++ bits_of lower number }
{}
