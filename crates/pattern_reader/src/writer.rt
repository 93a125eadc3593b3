//! Writes a pattern for the `regex` crate.

ghost use Rattle.std.specs.Prelude.{◌≡◌, ◌++◌, true, OnOk, IfOk, string_bytes};
ghost use Rattle.std.specs.List.{flat_map};
ghost use Rattle.pattern_reader.specs.Written as texts;

use crate::item::Item;
use crate::repeat::Repeat;
use crate::set::Set;
use crate::syntax::Syntax;
use std::alloc::{AllocError, Global};

/// Whether the `regex` crate reads this punctuation character as itself.
fn is_plain(c: char) -> bool
    ensures { result ≡ texts.is_plain c }
{
    matches!(
        c,
        '!' | '"' | '%' | '\'' | ',' | '/' | ':' | ';' | '<' | '=' | '>' | '@' | '_' | '`'
    )
}

/// Whether the `regex` crate reads this code point as itself only after a backslash.
fn is_special(c: char) -> bool
    ensures { result ≡ texts.is_special c }
{
    c.is_ascii_punctuation() && !is_plain(c)
}

/// Appends a code point that matches itself.
fn literal(out: &mut String, c: char) -> Result<(), AllocError>
    ensures { OnOk result (string_bytes out.new ≡ string_bytes out.old ++ texts.quoted c) }
{
    out.push_str(if is_special(c) { "\\" } else { "" })?;
    out.push(c)
}

/// Appends a range.
fn range(out: &mut String, low: char, high: char) -> Result<(), AllocError>
    ensures { OnOk result (string_bytes out.new ≡ string_bytes out.old ++ texts.item_text true (Item.Range low high)) }
{
    literal(out, low)?;
    out.push_str("-")?;
    literal(out, high)
}

/// The members of a set.
fn members(set: Set) -> &'static str
    ensures { result.now ≡ texts.members set }
{
    match set {
        Set::Alnum => "0-9A-Za-z",
        Set::Alpha => "A-Za-z",
        Set::Ascii => "\\x00-\\x7F",
        Set::Blank => "\\t ",
        Set::Cntrl => "\\x00-\\x1F\\x7F",
        Set::Digit => "0-9",
        Set::Graph => "!-\\~",
        Set::Lower => "a-z",
        Set::Print => " -\\~",
        Set::Punct => "!-/:-@\\[-`\\{-\\~",
        Set::Space => "\\t\\n\\v\\f\\r ",
        Set::Upper => "A-Z",
        Set::Word => "0-9A-Za-z_",
        Set::Xdigit => "0-9A-Fa-f",
        Set::PerlSpace => "\\t\\n\\f\\r ",
    }
}

/// An opening of brackets.
fn bracket(negated: bool) -> &'static str
    ensures { result.now ≡ texts.bracket negated }
{
    if negated { "[^" } else { "[" }
}

/// Appends a set outside brackets.
fn named(out: &mut String, set: Set, negated: bool) -> Result<(), AllocError>
    ensures { OnOk result (string_bytes out.new ≡ string_bytes out.old ++ texts.item_text true (Item.Named set negated)) }
{
    out.push_str(bracket(negated))?;
    out.push_str(members(set))?;
    out.push_str("]")
}

/// Appends counts.
fn counts(out: &mut String, min: u32, max: Option<u32>) -> Result<(), AllocError>
    ensures { OnOk result (string_bytes out.new ≡ string_bytes out.old ++ texts.counts min max) }
{
    match max {
        None if min == 0 => out.push_str("*"),
        None if min == 1 => out.push_str("+"),
        None => write!(out, "{{{min},}}"),
        Some(max) if min == 0 && max == 1 => out.push_str("?"),
        Some(max) => write!(out, "{{{min},{max}}}"),
    }
}

/// Appends a repetition.
fn repetition(out: &mut String, repeat: Repeat) -> Result<(), AllocError>
    ensures { OnOk result (string_bytes out.new ≡ string_bytes out.old ++ texts.repetition repeat) }
{
    counts(out, repeat.min, repeat.max)?;
    out.push_str(if repeat.lazy { "?" } else { "" })
}

/// Any code point.
fn any(dot_all: bool) -> &'static str
    ensures { result.now ≡ texts.item_text dot_all Item.Any }
{
    if dot_all { "(?s:.)" } else { "[^\\n]" }
}

/// Appends an item. `dot_all`: `.` matches a line feed too.
fn push(out: &mut String, dot_all: bool, item: Item) -> Result<(), AllocError>
    ensures { OnOk result (string_bytes out.new ≡ string_bytes out.old ++ texts.item_text dot_all item) }
{
    match item {
        Item::Literal(c) => literal(out, c),
        Item::Any => out.push_str(any(dot_all)),
        Item::Named(set, negated) => named(out, set, negated),
        Item::Start => out.push_str("\\A"),
        Item::End => out.push_str("\\z"),
        Item::Boundary => out.push_str("(?-u:\\b)"),
        Item::Open => out.push_str("(?:"),
        Item::Bar => out.push_str("|"),
        Item::Close => out.push_str(")"),
        Item::Repeat(repeat) => repetition(out, repeat),
        Item::OpenBracket(negated) => out.push_str(bracket(negated)),
        Item::Range(low, high) => range(out, low, high),
        Item::Member(set) => out.push_str(members(set)),
        Item::CloseBracket => out.push_str("]"),
    }
}

/// Appends items.
fn push_all(out: &mut String, dot_all: bool, items: &[Item]) -> Result<(), AllocError>
    ensures { OnOk result (string_bytes out.new ≡ string_bytes out.old ++ flat_map (texts.item_text dot_all) items.now) }
{
    for item in items {
        push(out, dot_all, *item)?;
    }
    Ok(())
}

/// The text of a pattern for the `regex` crate.
pub fn written(alloc: Global, syntax: &Syntax) -> Result<String, AllocError>
    ensures { IfOk result (λ t. string_bytes t ≡ texts.written syntax.now.flags syntax.now.items.items) }
{
    let mut out = String::new(alloc);
    out.push_str(if syntax.flags.fold { "(?i)" } else { "" })?;
    push_all(&mut out, syntax.flags.dot_all, &syntax.items)?;
    Ok(out)
}
