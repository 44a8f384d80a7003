//! Lines that are put together from words and numbers.

ghost use Rattle.std.specs.Prelude.{◌≤◌, length};

use super::{Line, MAX_LINE};

fn with_fields(text: &str, first: u64, second: u64) -> Line
    requires { length text.now ≤ 80 }
{
    let mut line = Line::new();
    line.push(text.as_bytes());
    line.push_field(first);
    line.push_field(second);
    line.end();
    line
}

#[test]
fn puts_lines_together(rt: HostRuntime) {
    let line = with_fields("refused Short", 12, 4_294_967_295);
    assert_eq!(rt;
        line.as_bytes(),
        b"refused Short 12 4294967295\n".as_slice()
    );
    let line = with_fields("", 0, 18_446_744_073_709_551_615);
    assert_eq!(rt; line.as_bytes(), b" 0 18446744073709551615\n".as_slice());
    let mut line = Line::new();
    assert_eq!(rt; line.as_bytes(), b"".as_slice());
    line.push_number(10);
    line.end();
    assert_eq!(rt; line.as_bytes(), b"10\n".as_slice());
}

#[test]
fn has_room_for_the_longest_line(rt: HostRuntime) {
    let mut line = Line::new();
    line.push(&[b'x'; MAX_LINE - 22]);
    line.push_field(18_446_744_073_709_551_615);
    line.end();
    assert_eq!(rt; line.as_bytes().len(), MAX_LINE);
    assert_eq!(rt; line.as_bytes().last(), Some(&b'\n'));
}
