//! The objects of a state.
ghost use Rattle.std.proofs.Props.{props};
ghost use Rattle.std.specs.Prelude.{◌≡◌, IfOk};
ghost use Rattle.cluster_state.specs.Collections.{definitions};
ghost use Rattle.cluster_state.specs.Objects.{objects_view};
ghost use Rattle.cluster_state.specs.Policies.{param_kind_view};
ghost use Rattle.cluster_state.specs.Scopes.{first_scope, AreScopes, ParamScope-set};

use crate::objects::Objects;
use crate::param_kind::ParamKind;
use crate::param_scope::ParamScope;
use crate::scopes::{Scopes, scope_in, scopes_by};
use std::alloc::{AllocError, Global};

/// All objects, and the scopes of the kinds that the definitions among them serve.
#[derive(Debug, Drop)]
pub(crate) struct StateObjects<'a> {
    pub(crate) all: Objects<'a>,
    scopes: Scopes<'a>,
    ghost defined: { AreScopes scopes (objects_view all definitions) } by { Prim.hlevel (props, ParamScope-set) },
}

impl<'a> StateObjects<'a> {
    pub(crate) fn new(alloc: Global, all: Objects<'a>) -> Result<StateObjects<'a>, AllocError>
        ensures { IfOk result (λ o. o.all ≡ all.entry) }
    {
        let scopes = scopes_by(alloc, all.definitions())?;
        Ok(StateObjects { all, scopes })
    }

    /// The scope of a kind by the first definition that serves it.
    pub(crate) fn scope(&self, kind: &ParamKind<'a>) -> Option<Option<ParamScope>>
        ensures { result ≡ first_scope (param_kind_view kind.now) (objects_view self.now.all definitions) }
    {
        scope_in(&self.scopes, kind)
    }
}
