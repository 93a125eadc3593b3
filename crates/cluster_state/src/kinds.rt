//! Known kinds of params.
ghost use Rattle.std.specs.Prelude.{◌≡◌, Some, option_map};
ghost use Rattle.cluster_state.specs.Params.{if_placed, known_kind, known_kind_view};
ghost use Rattle.cluster_state.specs.Policies.{param_kind_view};
ghost use Rattle.cluster_state.specs.ShapedScopes.{kind_from, scope_or_shown, scope_shown};
ghost use Rattle.cluster_state.specs.Shapes.{differs_from, is_spaced};
ghost use Rattle.cluster_state.specs.State.{state_view};

use crate::known_kind::KnownKind;
use crate::param_kind::ParamKind;
use crate::param_scope::ParamScope;
use crate::shape::Shape;
use crate::state::State;

impl<'a> State<'a> {
    /// The kind with its scope, if its params can be found: a CustomResourceDefinition serves it or
    /// there are objects of it, no object of it is listed in another version, and none is in a
    /// namespace if the kind is of the cluster.
    pub fn known_kind(&self, kind: &ParamKind<'a>) -> Option<KnownKind<'a>>
        ensures { option_map known_kind_view result ≡ known_kind (param_kind_view kind.now) (state_view self.now).items (state_view self.now).objects }
    {
        let shape = self.items.shape(kind);
        let defined = self.objects.scope(kind);
        kind_by(kind, &shape, defined)
    }
}

/// The kind with its scope, by what the items show and by the scope that a definition gives it.
fn kind_by<'a>(
    kind: &ParamKind<'a>,
    shape: &Option<Shape<'_>>,
    defined: Option<Option<ParamScope>>,
) -> Option<KnownKind<'a>>
    ensures { option_map known_kind_view result ≡ kind_from (param_kind_view kind.now) shape.now defined }
{
    if has_other_version(kind, shape) {
        return None;
    }
    let scope = scope_or_shown(defined, shape)?;
    let scope = if_placed(shape, scope)?;
    Some(KnownKind { kind: *kind, scope })
}

/// The scope, unless it is the cluster and an object of the kind is in a namespace.
fn if_placed(shape: &Option<Shape<'_>>, scope: ParamScope) -> Option<ParamScope>
    ensures { result ≡ if_placed (is_spaced shape.now) (Some scope) }
{
    match scope {
        ParamScope::Namespaced => Some(ParamScope::Namespaced),
        ParamScope::Cluster => {
            if is_spaced(shape) {
                None
            } else {
                Some(ParamScope::Cluster)
            }
        }
    }
}

fn is_spaced(shape: &Option<Shape<'_>>) -> bool
    ensures { result ≡ is_spaced shape.now }
{
    match shape {
        Some(shape) => shape.is_namespaced,
        None => false,
    }
}

fn scope_or_shown(
    defined: Option<Option<ParamScope>>,
    shape: &Option<Shape<'_>>,
) -> Option<ParamScope>
    ensures { result ≡ scope_or_shown defined shape.now }
{
    match defined {
        Some(scope) => scope,
        None => scope_shown(shape),
    }
}

/// The scope that the objects of the kind show; `None` if there are none.
fn scope_shown(shape: &Option<Shape<'_>>) -> Option<ParamScope>
    ensures { result ≡ scope_shown shape.now }
{
    match shape {
        Some(shape) => {
            if shape.is_namespaced {
                Some(ParamScope::Namespaced)
            } else {
                Some(ParamScope::Cluster)
            }
        }
        None => None,
    }
}

/// Whether an object of the same group and kind is listed in another version.
fn has_other_version(kind: &ParamKind<'_>, shape: &Option<Shape<'_>>) -> bool
    ensures { result ≡ differs_from (param_kind_view kind.now) shape.now }
{
    match shape {
        Some(shape) => shape.differs || shape.api_version != kind.api_version,
        None => false,
    }
}
