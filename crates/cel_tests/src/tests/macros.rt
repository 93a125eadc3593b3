//! Expansions of macros, and why others are refused, worked out by hand.

use super::{cells, core};
use MacroError::{HasWithoutSelection, InvalidIterationName, WrongArgumentCount};
use cel_macros::{Core, MacroError, expand};
use cel_reader::read;
use std::alloc::Global;

/// Texts, with the error of their expansion.
const REFUSED: [(&str, Option<MacroError>); 22] = [
    ("[1].all(x)", Some(WrongArgumentCount)),
    ("has()", Some(WrongArgumentCount)),
    ("[1].all(x, true, true)", Some(WrongArgumentCount)),
    ("[1].map(x)", Some(WrongArgumentCount)),
    ("[1].map(x, 1, 2, 3)", Some(WrongArgumentCount)),
    ("[1].all(1, true)", Some(InvalidIterationName)),
    ("[1].all(object, true)", Some(InvalidIterationName)),
    ("[1].exists(oldObject, true)", Some(InvalidIterationName)),
    ("[1].exists_one(params, true)", Some(InvalidIterationName)),
    (
        "[1].filter(namespaceObject, true)",
        Some(InvalidIterationName),
    ),
    ("[1].map(request, true)", Some(InvalidIterationName)),
    ("[1].map(variables, true, 1)", Some(InvalidIterationName)),
    ("has(object)", Some(HasWithoutSelection)),
    ("has(has())", Some(HasWithoutSelection)),
    ("has() + has(object)", Some(WrongArgumentCount)),
    ("{1: has()}", Some(WrongArgumentCount)),
    ("[1].all(x, has())", Some(WrongArgumentCount)),
    ("true ? 1 : [has(x)]", Some(HasWithoutSelection)),
    ("[1].all((x), true)", None),
    ("has((object.x))", None),
    ("all(1)", None),
    ("f(1, x.g(2)[y])", None),
];

/// One row per line: a text, a broken bar and its expanded expression.
const EXPANDED: &str = r#"variables.v¦Variable("v")
(variables).v.x¦Select(Variable("v"), "x")
variables['v']¦Index(Name("variables"), Literal(Text("v")))
has(x.y)¦Has(Name("x"), "y")
has(variables.y)¦Has(Name("variables"), "y")
x.has(y)¦Method(Name("x"), Unknown("has"), [Name("y")])
size(x)¦Call(Function(Size), [Name("x")])
x.all(i, true)¦Fold(All, "i", Name("x"), Literal(Bool(true)))
x.exists_one(i, i)¦Fold(ExistsOne, "i", Name("x"), Name("i"))
x.map(i, null)¦Fold(Map, "i", Name("x"), Literal(Null))
x.map(i, i, 1)¦FoldMap("i", Name("x"), Name("i"), Literal(Int(1)))
[x.filter(i, !i)]¦List([Fold(Filter, "i", Name("x"), Unary(Not, Name("i")))])
{'a': x.exists(i, i)}¦Map([(Literal(Text("a")), Fold(Exists, "i", Name("x"), Name("i")))])"#;

/// Whether the text's expansion has this error, or none.
fn ends_so(alloc: Global, text: &str, cause: Option<MacroError>) -> bool {
    match read(alloc, text) {
        Ok(tree) => expand(alloc, tree).err() == cause,
        Err(_) => false,
    }
}

/// Whether the expression has this debug text.
fn has_text(alloc: Global, core: &Core, wanted: &str) -> bool {
    match format!(in alloc; "{core:?}") {
        Ok(text) => text.as_str() == wanted,
        Err(_) => false,
    }
}

/// Whether the text's expanded expression has this debug text.
fn is_spelled(alloc: Global, text: &str, wanted: &str) -> bool {
    match core(alloc, text) {
        Some(core) => {
            let holds = has_text(alloc, &core, wanted);
            drop(core);
            holds
        }
        None => false,
    }
}

#[test]
fn refuses_macros(rt: HostRuntime) {
    for (text, cause) in &REFUSED {
        assert!(rt; ends_so(rt.alloc(), text, *cause), "row {text}");
    }
}

#[test]
fn expands_macros(rt: HostRuntime) {
    for line in EXPANDED.lines() {
        let (text, tree) = cells(line);
        assert!(rt; is_spelled(rt.alloc(), text, tree), "row {text}");
    }
}
