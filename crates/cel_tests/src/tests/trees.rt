//! Trees of texts, worked out by hand, and texts at the limits.

use super::{cells, repeated};
use ReadError::{
    IntOutOfRange, InvalidTextLiteral, TextTooLong, TooManyOpen, UnexpectedToken, UnknownCharacter,
};
use cel_reader::{Expr, ReadError, read};
use std::alloc::Global;

/// One row per line: a text, a broken bar and its tree.
const TREES: &str = r#"--1¦Unary(Negate, Literal(Int(-1)))
-9223372036854775808¦Literal(Int(-9223372036854775808))
R'\d'¦Literal(Text("\\d"))
'\X41'¦Literal(Text("A"))
true¦Literal(Bool(true))
false¦Literal(Bool(false))
null¦Literal(Null)
x // end¦Name("x")
((x))¦Name("x")
f()¦Call("f", [])
f(1, x)¦Call("f", [Literal(Int(1)), Name("x")])
object.metadata.namespace¦Select(Select(Name("object"), "metadata"), "namespace")
a.m()¦Method(Name("a"), "m", [])
a.if(b)[1]¦Index(Method(Name("a"), "if", [Name("b")]), Literal(Int(1)))
[]¦List([])
[,]¦List([])
[1,]¦List([Literal(Int(1))])
[1, [2]]¦List([Literal(Int(1)), List([Literal(Int(2))])])
{}¦Map([])
{,}¦Map([])
{'a': 1, b: 2,}¦Map([(Literal(Text("a")), Literal(Int(1))), (Name("b"), Literal(Int(2)))])
!!x¦Unary(Not, Unary(Not, Name("x")))
1-1¦Binary(Subtract, Literal(Int(1)), Literal(Int(1)))
1 < 2 < 3¦Binary(Less, Binary(Less, Literal(Int(1)), Literal(Int(2))), Literal(Int(3)))
a - (b - c)¦Binary(Subtract, Name("a"), Binary(Subtract, Name("b"), Name("c")))
a || b && c¦Binary(Or, Name("a"), Binary(And, Name("b"), Name("c")))
a && b || c¦Binary(Or, Binary(And, Name("a"), Name("b")), Name("c"))
a + b * c¦Binary(Add, Name("a"), Binary(Multiply, Name("b"), Name("c")))
-a.b / c¦Binary(Divide, Unary(Negate, Select(Name("a"), "b")), Name("c"))
a % b¦Binary(Remainder, Name("a"), Name("b"))
a <= b + c¦Binary(LessEqual, Name("a"), Binary(Add, Name("b"), Name("c")))
a > b¦Binary(Greater, Name("a"), Name("b"))
a >= b¦Binary(GreaterEqual, Name("a"), Name("b"))
a == b¦Binary(Equal, Name("a"), Name("b"))
a != b¦Binary(NotEqual, Name("a"), Name("b"))
a in b¦Binary(In, Name("a"), Name("b"))
a ? b : c ? d : e¦Ternary(Name("a"), Name("b"), Ternary(Name("c"), Name("d"), Name("e")))
(a ? b : c) ? d : e¦Ternary(Ternary(Name("a"), Name("b"), Name("c")), Name("d"), Name("e"))"#;

/// Texts at the limits and beyond them, and texts without tokens: a unit, how often it is repeated, the text after it,
/// and the error.
const LIMITS: [(&str, usize, &str, Option<ReadError>); 17] = [
    ("(", 101, "", Some(TooManyOpen(100))),
    ("[", 101, "", Some(TooManyOpen(100))),
    ("{1:", 101, "", Some(TooManyOpen(300))),
    ("f(", 101, "", Some(TooManyOpen(201))),
    ("a.f(", 101, "", Some(TooManyOpen(403))),
    ("a[", 101, "", Some(TooManyOpen(201))),
    ("a?a:", 101, "a", Some(TooManyOpen(401))),
    ("a?a:", 100, "a", None),
    ("[", 100, "", Some(UnexpectedToken(100))),
    ("(", 100, "1(", Some(UnexpectedToken(101))),
    ("(", 65_536, "", Some(TextTooLong(4_096))),
    ("(", 4_096, "", Some(TooManyOpen(100))),
    ("!", 4_095, "true", None),
    (" ", 65_537, "", Some(TextTooLong(65_536))),
    ("(", 2, "#", Some(UnknownCharacter(2))),
    ("(", 3, "'a", Some(InvalidTextLiteral(3))),
    ("9", 19, "", Some(IntOutOfRange(0))),
];

/// Whether the tree has this debug text.
fn has_text(alloc: Global, tree: &Expr, wanted: &str) -> bool {
    match format!(in alloc; "{tree:?}") {
        Ok(text) => text.as_str() == wanted,
        Err(_) => false,
    }
}

/// Whether the tree of the text has this debug text.
fn is_spelled(alloc: Global, text: &str, wanted: &str) -> bool {
    match read(alloc, text) {
        Ok(tree) => {
            let holds = has_text(alloc, &tree, wanted);
            drop(tree);
            holds
        }
        Err(_) => false,
    }
}

#[test]
fn reads_texts(rt: HostRuntime) {
    for line in TREES.lines() {
        let (text, tree) = cells(line);
        assert!(rt; is_spelled(rt.alloc(), text, tree), "row {text}");
    }
}

/// The error of the text, if it is not an expression.
fn refusal(alloc: Global, text: &str) -> Option<ReadError> {
    read(alloc, text).err()
}

/// Whether the repeated text and the text after it have this error.
fn ends_so(alloc: Global, unit: &str, count: usize, more: &str, cause: Option<ReadError>) -> bool {
    match repeated(alloc, unit, count, more) {
        Ok(text) => refusal(alloc, text.as_str()) == cause,
        Err(_) => false,
    }
}

#[test]
fn keeps_the_limits(rt: HostRuntime) {
    for (unit, count, more, cause) in &LIMITS {
        assert!(rt;
            ends_so(rt.alloc(), unit, *count, more, *cause),
            "row {unit} {count}"
        );
    }
}
