//! Trees of texts, worked out by hand, and texts at the limits.

use super::{cells, repeated};
use ReadError::{
    IntOutOfRange, InvalidTextLiteral, TextTooLong, TooManyOpen, UnexpectedToken, UnknownCharacter,
};
use WideReadError::{Bytes, Double, Text};
use cel_tokens::ReadError;
use std::alloc::Global;
use std::test::Fail;
use wide_reader::{MacroFault, WideReadError, read};

/// One row per line: a text, a broken bar and its tree.
const TREES: &str = r#"a.?b¦Select(Name("a"), Optional, "b")
a[?k]¦Index(Name("a"), Optional, Name("k"))
args[?-1]¦Index(Name("args"), Optional, Literal(Int(-1)))
has(a.`x/y`)¦Has(Name("a"), "x/y")
a.?`x y`¦Select(Name("a"), Optional, "x y")
.object.spec¦Select(Root("object"), Plain, "spec")
.f(1)¦Call("f", [Literal(Int(1))])
[?a, b]¦List([(Optional, Name("a")), (Plain, Name("b"))])
{?'a': b, 'c': d}¦Map([(Optional, Literal(Text("a")), Name("b")), (Plain, Literal(Text("c")), Name("d"))])
1 < 2u¦Binary(Less, Literal(Int(1)), Uint(2))
--x¦Name("x")
!!!x¦Unary(Not, Name("x"))
---x¦Unary(Negate, Name("x"))
--1¦Unary(Negate, Literal(Int(-1)))
'''it's'''¦Literal(Text("it's"))
r"""\d"""¦Literal(Text("\\d"))
l.all(x, x)¦Fold(All, Name("l"), "x", Name("x"))
l.exists_one(x, x)¦Fold(ExistsOne, Name("l"), "x", Name("x"))
l.map(x, p, t)¦FilterMap(Name("l"), "x", Name("p"), Name("t"))
l.existsOne(k, v, p)¦PairFold(ExistsOne, Name("l"), "k", "v", Name("p"))
l.existsOne(k, p)¦Method(Name("l"), "existsOne", [Name("k"), Name("p")])
l.transformList(k, v, t)¦PairFold(TransformList, Name("l"), "k", "v", Name("t"))
l.transformList(k, v, p, t)¦PairFilterMap(Name("l"), "k", "v", Name("p"), Name("t"))
o.optMap(x, t)¦OptionalFold(Map, Name("o"), "x", Name("t"))
o.optFlatMap(x, t)¦OptionalFold(FlatMap, Name("o"), "x", Name("t"))
l.all(x)¦Method(Name("l"), "all", [Name("x")])
l.all(object, true)¦Fold(All, Name("l"), "object", Literal(Bool(true)))
a ? [?b] : c¦Ternary(Name("a"), List([(Optional, Name("b"))]), Name("c"))
a ?b:c¦Ternary(Name("a"), Name("b"), Name("c"))"#;

/// Whether the text is read to this tree, given as a debug text.
pub fn has_tree(alloc: Global, text: &str, wanted: &str) -> Result<bool, Fail> {
    let tree = read(alloc, text)?;
    Ok(format!(in alloc; "{tree:?}")?.as_str() == wanted)
}

#[test]
fn reads_texts(rt: HostRuntime) -> Result<(), Fail> {
    for line in TREES.lines() {
        let (text, tree) = cells(line);
        assert!(rt; has_tree(rt.alloc(), text, tree)?, "row {text}");
    }
    Ok(())
}

/// Texts that are refused, with their errors.
#[rattlefmt::skip]
const REFUSED: [(&str, WideReadError); 24] = [
    ("b'a' == b'a'", Bytes(0)),
    ("1.5 < 2.0", Double(0)),
    ("object.f{}", Text(UnexpectedToken(8))),
    ("object.?f()", Text(UnexpectedToken(9))),
    ("[1,,2]", Text(UnexpectedToken(3))),
    ("'abc", Text(InvalidTextLiteral(0))),
    ("99999999999999999999u", Text(IntOutOfRange(0))),
    ("has(a.?b)", WideReadError::Macro(MacroFault::NoSelection)),
    ("has(a)", WideReadError::Macro(MacroFault::NoSelection)),
    ("has(a.b, c)", WideReadError::Macro(MacroFault::ArgumentCount)),
    ("l.all(k, k, true)", WideReadError::Macro(MacroFault::IterationName)),
    ("l.all(k.a, true)", WideReadError::Macro(MacroFault::IterationName)),
    ("m.transformMap(k, v, v)", WideReadError::Macro(MacroFault::ComputedMap)),
    ("a b'x'", Text(UnexpectedToken(2))),
    ("x + b'a' c", Bytes(4)),
    ("`a` + 1", Text(UnexpectedToken(0))),
    ("a.`b`()", Text(UnexpectedToken(5))),
    ("a.`b c", Text(UnknownCharacter(2))),
    ("-1.5", Double(1)),
    ("a.5", Text(UnexpectedToken(1))),
    ("f(?a)", Text(UnexpectedToken(2))),
    ("a ?? b : c", Text(UnexpectedToken(3))),
    ("'a' 'b'", Text(UnexpectedToken(4))),
    ("", Text(UnexpectedToken(0))),
];

/// Texts at the limits and beyond them: a unit, how often it is repeated, the text after it, and the error.
#[rattlefmt::skip]
const LIMITS: [(&str, usize, &str, Option<ReadError>); 16] = [
    ("(", 101, "", Some(TooManyOpen(100))),
    ("[?", 101, "", Some(TooManyOpen(200))),
    ("{?1:", 101, "", Some(TooManyOpen(400))),
    (".f(", 101, "", Some(TooManyOpen(302))),
    ("a.f(", 101, "", Some(TooManyOpen(403))),
    ("a[?", 101, "", Some(TooManyOpen(301))),
    ("a?a:", 101, "a", Some(TooManyOpen(401))),
    ("a?a:", 100, "a", None),
    ("a.?b.", 500, "c", None),
    ("[?", 100, "", Some(UnexpectedToken(200))),
    ("(", 65_536, "", Some(TextTooLong(4_096))),
    ("(", 4_096, "'a", Some(TextTooLong(4_096))),
    ("(", 4_095, "'a", Some(InvalidTextLiteral(4_095))),
    ("!", 4_095, "true", None),
    ("!", 4_096, "true", Some(TextTooLong(4_096))),
    (" ", 65_537, "", Some(TextTooLong(65_536))),
];

#[test]
fn keeps_the_limits(rt: HostRuntime) -> Result<(), Fail> {
    for (unit, count, more, cause) in &LIMITS {
        let text = repeated(rt.alloc(), unit, *count, more)?;
        let wanted = cause.map(Text);
        assert!(rt;
            read(rt.alloc(), text.as_str()).err() == wanted,
            "row {unit} {count}"
        );
    }
    Ok(())
}

#[test]
fn refuses_texts(rt: HostRuntime) -> Result<(), Fail> {
    for (text, error) in &REFUSED {
        let found = read(rt.alloc(), text).err();
        assert!(rt; found == Some(*error), "row {text}");
    }
    Ok(())
}
