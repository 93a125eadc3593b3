//! Fields of roots whose values are kept for later uses.
//! A path is in `Paths` of `expression_code/specs`, with laws in `Gives/Paths`.

ghost use Rattle.std.specs.Prelude.{◌≡◌, map, option_map, string_bytes, IfOk, IfSome};
ghost use Rattle.cel_macros.specs.CoreView.{core_view};
ghost use Rattle.expression_code.specs.Code.Leaves.{IsFrameWord};
ghost use Rattle.tree_code.specs.Code.Expressions as specs;
ghost use Rattle.tree_code.specs.Code.Literals.{path_code};
ghost use Rattle.tree_code.specs.Code.Whole as whole;
ghost use Rattle.tree_code.specs.FrameWords.{path_view, words_of};

use crate::code::Code;
use crate::code::names::root_reference;
use crate::code::selection::select;
use crate::frame_words::FrameWords;
use crate::part::Part;
use crate::path::Path;
use cel_macros::Core;
use expression_code::simple_operand::SimpleOperand;
use std::alloc::Global;

/// Word 0, if it keeps this field of the expression.
pub(crate) fn field_leaf(of: &Core, field: &str, words: &FrameWords) -> Option<SimpleOperand>
    ensures leaf { result ≡ specs.field_leaf (words_of words.now).path (core_view of.now) field.now }
    ensures word { IfSome result IsFrameWord }
{
    match words {
        FrameWords::Keeping(path, _) => match of {
            Core::Name(name) if name.as_str() == path.root && field == path.field => Some(
                SimpleOperand::Word(0),
            ),
            _ => None,
        },
        FrameWords::Outside(_) | FrameWords::Within(..) => None,
    }
}

/// This field of a root, or else the other path.
fn path_or<'a>(of: &'a Core, field: &'a str, other: Option<Path<'a>>) -> Option<Path<'a>>
    ensures { option_map path_view result ≡ whole.path_or (core_view of.now) field.now (option_map path_view other.entry) }
{
    match of {
        Core::Name(root) => Some(Path {
            root: root.as_str(),
            field,
        }),
        _ => other,
    }
}

/// The field of a root that the expression evaluates first.
#[tactic(auto, unfolding(crate::specs::Code::Whole::first_path))]
pub(crate) fn first_path(core: &Core) -> Option<Path<'_>>
    ensures { option_map path_view result ≡ whole.first_path (core_view core.now) }
{
    match core {
        Core::Select(of, field) => path_or(of, field.as_str(), first_path(of)),
        Core::Has(of, _)
        | Core::Index(of, _)
        | Core::Method(of, _, _)
        | Core::Unary(_, of)
        | Core::Binary(_, of, _)
        | Core::Ternary(of, _, _)
        | Core::Fold(_, _, of, _)
        | Core::FoldMap(_, of, _, _) => first_path(of),
        Core::Literal(_)
        | Core::Name(_)
        | Core::Variable(_)
        | Core::Call(_, _)
        | Core::List(_)
        | Core::Map(_) => None,
    }
}

/// The code that evaluates the path and leaves its value in R0.
pub(crate) fn walk(alloc: Global, texts: &[String], path: Path) -> Code
    ensures { IfOk result (λ code. code.items ≡ path_code (map string_bytes texts.now) (path_view path.entry)) }
{
    let root = Part {
        leaf: Some(SimpleOperand::Reference(root_reference(path.root))),
        code: Vec::new(alloc),
    };
    select(alloc, &root, texts, path.field)
}
