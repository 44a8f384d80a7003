//! The lines of a script.

ghost use Rattle.std.specs.Prelude.{◌≡◌, ◌==◌, ◌↔◌, ◌++◌, ◌∷◌, IsSome, IfSome, MatchOption, Contains, option_map};
ghost use Rattle.std.specs.Prelude.{position};
ghost use Rattle.dev_settings.specs.Lines.{line_text_of, lines_of, unended, with_first};

/// The longest line that is read, in bytes, with a carriage return at its end counted.
pub const MAX_LINE_BYTES: usize = 4096;

/// The first line of a script, without the line feed that ends it, and the bytes after that line
/// feed. `None` where no line feed stands in the script.
pub fn split_line(bytes: &[u8]) -> Option<(&[u8], &[u8])>
    ensures found { IsSome result ↔ Contains bytes.now 10 }
    ensures parts { IfSome result (λ p. bytes.now ≡ p.0.now ++ 10 ∷ p.1.now) }
    ensures lines { MatchOption result (lines_of bytes.now ≡ unended bytes.now)
        (λ p. lines_of bytes.now ≡ with_first p.0.now (lines_of p.1.now)) }
{
    let end = line_end(bytes)?;
    Some((&bytes[..end], &bytes[end + 1..]))
}

/// Where the first line feed stands.
fn line_end(bytes: &[u8]) -> Option<usize>
    ensures { result ≡ position (λ byte. byte == 10) bytes.now }
{
    bytes.iter().position(|byte| *byte == b'\n')
}

/// The text of a line: the carriage return at its end is taken off. `None` where the line has more
/// than [`MAX_LINE_BYTES`], with a carriage return counted.
pub fn line_text(line: &[u8]) -> Option<&[u8]>
    ensures { option_map (λ text. text.now) result ≡ line_text_of line.now }
{
    if line.len() > MAX_LINE_BYTES {
        return None;
    }
    match line {
        [text @ .., b'\r'] => Some(text),
        _ => Some(line),
    }
}
