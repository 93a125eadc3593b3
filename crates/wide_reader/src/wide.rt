//! Expressions as clusters store them.

use cel_reader::{BinaryOperator, Literal, UnaryOperator};

/// Whether a part is written with a question mark.
#[derive(Clone, Copy, Debug, PartialEq, Eq)]
pub enum Access {
    /// Without one, as in `e.f`, `e[k]`, `[a]` and `{k: a}`.
    Plain,
    /// With one, as in `e.?f`, `e[?k]`, `[?a]` and `{?k: a}`.
    Optional,
}

/// A macro with one iteration name: `range.all(x, p)` and its kin.
#[derive(Clone, Copy, Debug, PartialEq, Eq)]
pub enum Macro {
    All,
    Exists,
    ExistsOne,
    Filter,
    Map,
}

/// A macro with two iteration names: `range.all(k, v, p)` and its kin.
#[derive(Clone, Copy, Debug, PartialEq, Eq)]
pub enum PairMacro {
    All,
    Exists,
    ExistsOne,
    TransformList,
}

/// A macro over an optional value: `o.optMap(x, t)` and `o.optFlatMap(x, t)`.
#[derive(Clone, Copy, Debug, PartialEq, Eq)]
pub enum OptionalMacro {
    Map,
    FlatMap,
}

/// An expression of CEL as API servers store it. Macros are resolved: a call or a method that is left is none.
/// Parentheses leave no node.
#[derive(Debug, Drop)]
pub enum Wide {
    Literal(Literal),
    /// An unsigned int, written `1u`.
    Uint(u64),
    Name(String),
    /// A name with a dot before it, as `.object`: a root, also if an iteration name hides it.
    Root(String),
    /// The field of this name.
    Select(Box<Wide>, Access, String),
    /// The item or entry at an index.
    Index(Box<Wide>, Access, Box<Wide>),
    /// Whether the operand has the field of this name, written `has(e.f)`.
    Has(Box<Wide>, String),
    Unary(UnaryOperator, Box<Wide>),
    Binary(BinaryOperator, Box<Wide>, Box<Wide>),
    /// A condition, the value if it is true, and the value if it is false.
    Ternary(Box<Wide>, Box<Wide>, Box<Wide>),
    List(Vec<(Access, Wide)>),
    /// Keys and their values.
    Map(Vec<(Access, Wide, Wide)>),
    /// A range, its iteration name, and the predicate or transform.
    Fold(Macro, Box<Wide>, String, Box<Wide>),
    /// `range.map(x, p, t)`: the transform of the items for which the predicate holds.
    FilterMap(Box<Wide>, String, Box<Wide>, Box<Wide>),
    /// A range, the names of an index or key and of an item or value, and the predicate or transform.
    PairFold(PairMacro, Box<Wide>, String, String, Box<Wide>),
    /// `range.transformList(k, v, p, t)`.
    PairFilterMap(Box<Wide>, String, String, Box<Wide>, Box<Wide>),
    /// An optional value, the name of what it holds, and the transform.
    OptionalFold(OptionalMacro, Box<Wide>, String, Box<Wide>),
    /// A call of a function.
    Call(String, Vec<Wide>),
    /// A call of the method of this name.
    Method(Box<Wide>, String, Vec<Wide>),
}
