//! Operators and brackets.

ghost use Rattle.std.specs.Prelude.{◌≡◌, ◌≤◌, length, IfSome};
ghost use Rattle.cel_tokens.specs.Marks as marks;

/// An operator or a bracket.
#[derive(Clone, Copy, Debug, PartialEq, Eq)]
pub enum Mark {
    Question,
    Colon,
    Or,
    And,
    Less,
    LessEqual,
    GreaterEqual,
    Greater,
    Equal,
    NotEqual,
    Plus,
    Minus,
    Star,
    Slash,
    Percent,
    Not,
    Dot,
    Comma,
    OpenParen,
    CloseParen,
    OpenBracket,
    CloseBracket,
    OpenBrace,
    CloseBrace,
}

/// The mark of these two bytes.
fn two_bytes(first: u8, second: u8) -> Option<Mark>
    ensures { result ≡ marks.two_bytes first second }
{
    match (first, second) {
        (b'|', b'|') => Some(Mark::Or),
        (b'&', b'&') => Some(Mark::And),
        (b'<', b'=') => Some(Mark::LessEqual),
        (b'>', b'=') => Some(Mark::GreaterEqual),
        (b'=', b'=') => Some(Mark::Equal),
        (b'!', b'=') => Some(Mark::NotEqual),
        _ => None,
    }
}

/// The bracket of this byte.
fn bracket(byte: u8) -> Option<Mark>
    ensures { result ≡ marks.bracket byte }
{
    match byte {
        b'(' => Some(Mark::OpenParen),
        b')' => Some(Mark::CloseParen),
        b'[' => Some(Mark::OpenBracket),
        b']' => Some(Mark::CloseBracket),
        b'{' => Some(Mark::OpenBrace),
        b'}' => Some(Mark::CloseBrace),
        _ => None,
    }
}

/// The operator of this byte.
fn operator(byte: u8) -> Option<Mark>
    ensures { result ≡ marks.operator byte }
{
    match byte {
        b'?' => Some(Mark::Question),
        b':' => Some(Mark::Colon),
        b'<' => Some(Mark::Less),
        b'>' => Some(Mark::Greater),
        b'+' => Some(Mark::Plus),
        b'-' => Some(Mark::Minus),
        b'*' => Some(Mark::Star),
        b'/' => Some(Mark::Slash),
        b'%' => Some(Mark::Percent),
        b'!' => Some(Mark::Not),
        b'.' => Some(Mark::Dot),
        b',' => Some(Mark::Comma),
        _ => None,
    }
}

/// The mark of this byte.
fn one_byte(byte: u8) -> Option<Mark>
    ensures { result ≡ marks.one_byte byte }
{
    match bracket(byte) {
        Some(mark) => Some(mark),
        None => operator(byte),
    }
}

/// The mark of a token with these bytes.
pub fn mark_of(bytes: &[u8]) -> Option<Mark>
    ensures { result ≡ marks.mark_of bytes.now }
{
    match bytes {
        [first] => one_byte(*first),
        [first, second] => two_bytes(*first, *second),
        _ => None,
    }
}

/// The longest mark at the front, with its length.
pub fn mark_at(bytes: &[u8]) -> Option<(Mark, usize)>
    ensures value { result ≡ marks.mark_at bytes.now }
    ensures within { IfSome result (λ x. (1 ≤ x.1) × (x.1 ≤ length bytes.now)) }
{
    let first = *bytes.first()?;
    if let Some(second) = bytes.get(1) {
        if let Some(mark) = two_bytes(first, *second) {
            return Some((mark, 2));
        }
    }
    match one_byte(first) {
        Some(mark) => Some((mark, 1)),
        None => None,
    }
}
