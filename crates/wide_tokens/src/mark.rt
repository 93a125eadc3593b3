//! The mark at the front.

ghost use Rattle.std.specs.Prelude.{◌≡◌, ◌≤◌, length, IfSome};
ghost use Rattle.cel_tokens.specs.Marks as marks;

use cel_tokens::{Mark, mark_of};

/// The longest mark at the front, with its length.
pub fn mark_at(bytes: &[u8]) -> Option<(Mark, usize)>
    ensures value { result ≡ marks.mark_at bytes.now }
    ensures within { IfSome result (λ x. (1 ≤ x.1) × (x.1 ≤ length bytes.now)) }
{
    match bytes {
        [first, second, ..] => match mark_of(&[*first, *second]) {
            Some(mark) => Some((mark, 2)),
            None => one_byte(*first),
        },
        [first] => one_byte(*first),
        [] => None,
    }
}

/// The mark of this byte, with its length.
fn one_byte(byte: u8) -> Option<(Mark, usize)>
    ensures { result ≡ marks.of_one (marks.one_byte byte) }
{
    let mark = mark_of(&[byte])?;
    Some((mark, 1))
}
