//! Params of a policy and a binding.
ghost use Rattle.std.specs.Prelude.{◌≡◌, IfOk, List, map};
ghost use Rattle.std.specs.List.{All};
ghost use Rattle.std.specs.Option.{option_to_list};
ghost use Rattle.serde_json.specs.View.{view};
ghost use Rattle.label_selectors.specs.Selectors.{selector_view};
ghost use Rattle.cluster_state.specs.Bindings.{choice_view, param_ref_view};
ghost use Rattle.cluster_state.specs.Items.{Item};
ghost use Rattle.cluster_state.specs.Numbers.{AreNumbered, IsNumbered, selected_of};
ghost use Rattle.cluster_state.specs.Objects.{entries_at, entries_of, named_view};
ghost use Rattle.cluster_state.specs.Params.{ParamsRead, chosen, has_needless_namespace, known_kind_view, lacks_namespace, params_of, params_place};
ghost use Rattle.cluster_state.specs.Policies.{param_kind_view};
ghost use Rattle.cluster_state.specs.State.{state_view};

use crate::document::Document;
use crate::known_kind::KnownKind;
use crate::objects::object;
use crate::param_choice::ParamChoice;
use crate::param_error::ParamError;
use crate::param_kind::ParamKind;
use crate::param_ref::ParamRef;
use crate::param_scope::ParamScope;
use crate::state::State;
use admission_documents::ObjectLabels;
use label_selectors::LabelSelector;
use std::alloc::{AllocError, Global};
use std::collections::BTreeMap;

impl<'a> State<'a> {
    /// The params of this kind that a binding refers to, for a request in this namespace, in the
    /// order of their names.
    ///
    /// # Errors
    ///
    /// The first cause of `ParamError`.
    pub fn params(
        &self,
        alloc: Global,
        kind: &KnownKind<'a>,
        reference: &ParamRef<'a>,
        namespace: &str,
    ) -> Result<Vec<Document<'a>>, ParamError>
        ensures value { ParamsRead (params_of (state_view self.now).objects (known_kind_view kind.now) (param_ref_view reference.now) namespace.now) result }
        ensures numbered { IfOk result (λ v. All (IsNumbered (state_view self.now).items) v.items) }
    {
        if lacks_namespace(kind.scope, reference.namespace, namespace) {
            return Err(ParamError::ClusterScopedRequest);
        }
        if has_needless_namespace(kind.scope, reference.namespace) {
            return Err(ParamError::NeedlessNamespace);
        }
        let objects = self.objects_for(kind, reference.namespace, namespace);
        let params = chosen(alloc, &reference.choice, objects)?;
        if reference.denies_absence && params.is_empty() {
            return Err(ParamError::NotFound);
        }
        Ok(params)
    }

    /// The objects of the kind: in the namespace that the binding names, and else in the request's.
    fn objects_for(
        &self,
        kind: &KnownKind<'a>,
        named: &'a str,
        own: &str,
    ) -> Option<&BTreeMap<&'a str, Document<'a>>>
        ensures { entries_of result ≡ entries_at self.now.objects.all (params_place kind.now.scope (param_kind_view kind.now.kind) named.now own.now) }
    {
        let ParamKind {
            api_version,
            kind: name,
        } = kind.kind;
        match kind.scope {
            ParamScope::Namespaced => {
                if named.is_empty() {
                    self.objects.all.at(api_version, name, own)
                } else {
                    self.objects.all.named(&(named, name, api_version))
                }
            }
            ParamScope::Cluster => self.objects.all.named(&("", name, api_version)),
        }
    }
}

fn lacks_namespace(scope: ParamScope, named: &str, own: &str) -> bool
    ensures { result ≡ lacks_namespace scope named.now own.now }
{
    match scope {
        ParamScope::Namespaced => named.is_empty() && own.is_empty(),
        ParamScope::Cluster => false,
    }
}

fn has_needless_namespace(scope: ParamScope, named: &str) -> bool
    ensures { result ≡ has_needless_namespace scope named.now }
{
    match scope {
        ParamScope::Namespaced => false,
        ParamScope::Cluster => !named.is_empty(),
    }
}

/// The objects that the choice selects.
fn chosen<'a>(
    alloc: Global,
    choice: &ParamChoice<'a>,
    named: Option<&BTreeMap<&'a str, Document<'a>>>,
) -> Result<Vec<Document<'a>>, AllocError>
    ensures value { IfOk result (λ v. map (λ d. view d.value.now) v.items ≡ chosen (choice_view choice.now) (named_view (entries_of named.entry))) }
    ensures numbered { (is : List Item) → AreNumbered is (entries_of named.entry) → IfOk result (λ v. All (IsNumbered is) v.items) }
{
    match choice {
        ParamChoice::Named(name) => one(alloc, object(named, name)),
        ParamChoice::Selected(selector) => selected_in(alloc, selector, named),
    }
}

fn one<'a>(alloc: Global, object: Option<Document<'a>>) -> Result<Vec<Document<'a>>, AllocError>
    ensures { IfOk result (λ v. v.items ≡ option_to_list object.entry) }
{
    let mut objects = Vec::new(alloc);
    if let Some(object) = object {
        objects.push(object)?;
    }
    Ok(objects)
}

fn selected_in<'a>(
    alloc: Global,
    selector: &LabelSelector,
    named: Option<&BTreeMap<&'a str, Document<'a>>>,
) -> Result<Vec<Document<'a>>, AllocError>
    ensures { IfOk result (λ v. v.items ≡ selected_of (selector_view selector.now) (entries_of named.entry)) }
{
    match named {
        Some(named) => selected_of(alloc, selector, named),
        None => Ok(Vec::new(alloc)),
    }
}

fn selected_of<'a>(
    alloc: Global,
    selector: &LabelSelector,
    named: &BTreeMap<&'a str, Document<'a>>,
) -> Result<Vec<Document<'a>>, AllocError>
    ensures { IfOk result (λ v. v.items ≡ selected_of (selector_view selector.now) named.now.entries) }
{
    let mut objects = Vec::new(alloc);
    for (_name, document) in named.iter() {
        if selector.selects(&ObjectLabels::of(document.value)) {
            objects.push(*document)?;
        }
    }
    Ok(objects)
}
