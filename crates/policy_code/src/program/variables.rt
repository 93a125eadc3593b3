//! The routines of a policy's variables.

ghost use Rattle.std.specs.Prelude.{◌≡◌, ◌≤◌, length, map, OnOk};
ghost use Rattle.cel_macros.specs.CoreView.{core_view};
ghost use Rattle.cel_types.specs.Declarations.{declaration};
ghost use Rattle.policy_code.specs.Emission.{with_variables, FitInOrder};

use super::pieces::put_variable;
use cel_macros::Core;
use cel_types::{Scope, Variable};
use codegen::Emitter;
use std::alloc::{AllocError, Global};

/// Emits the routines of the variables. Each may use the earlier ones.
pub(super) fn variables(
    alloc: Global,
    declared: &[Variable],
    cores: &[Core],
    emitter: &mut Emitter,
) -> Result<(), AllocError>
    requires fit { FitInOrder (map declaration declared.now) (map core_view cores.now) }
    requires declared { length cores.now ≤ length declared.now }
    ensures { OnOk result (emitter.new ≡ with_variables (map declaration declared.now) 0 emitter.old (map core_view cores.now)) }
{
    let mut scope = Scope::new(alloc);
    for (place, core) in cores.iter().enumerate() {
        put_variable(alloc, core, &scope, emitter)?;
        let variable = &declared[place];
        scope.add(variable.name.as_str(), variable.cel_type, variable.depth)?;
    }
    Ok(())
}
