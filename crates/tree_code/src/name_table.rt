//! The meaning of the names in an expression.

ghost use Rattle.std.specs.Prelude.{◌≤◌, length, All};
ghost use Rattle.expression_code.specs.Limits.{memo_limit, slot_reach};

use cel_types::Variable;

/// The meaning of the names in a whole expression.
#[derive(Drop)]
pub struct NameTable<'a> {
    /// The texts among the constants, in order.
    pub texts: &'a [String],
    /// The variables, in order of declaration.
    pub variables: &'a [Variable],
    /// The first slot of each variable's routine.
    pub routines: &'a [u32],
    ghost few: { length routines.now ≤ memo_limit },
    ghost near: { All (λ slot. slot ≤ slot_reach) routines.now },
}
