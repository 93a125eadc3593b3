//! The steps of a policy with a request.
ghost use Rattle.std.specs.Prelude.{◌≡◌, [], ◌∷◌, List, None, Some, IfOk, map, option_map, string_bytes};
ghost use Rattle.std.specs.List.{All};
ghost use Rattle.serde_json.specs.View.{view};
ghost use Rattle.admission_documents.specs.Requests.{request_view};
ghost use Rattle.cluster_state.specs.Bindings.{binding_view};
ghost use Rattle.cluster_state.specs.Items.{Item};
ghost use Rattle.cluster_state.specs.Numbers.{IsNumberedNamespace};
ghost use Rattle.cluster_state.specs.Params.{namespace_object_view, param_error_text};
ghost use Rattle.cluster_state.specs.State.{state_view};
ghost use Rattle.cluster_plan.specs.Steps.{binding_steps, absent_text, error_steps, evaluates, evaluations, fails_closed, params_for, FindsParams, IsNumberedIf, IsNumberedStep, asked_view, matched_steps, step_documents, step_view, trouble_text};

use crate::asked_policy::AskedPolicy;
use crate::quotes::go_quoted;
use crate::step::Step;
use admission_documents::Request;
use admission_match::{Answer, Trouble};
use cluster_state::{Binding, Document, NamespaceObject, ParamError, State};
use std::alloc::{AllocError, Global};

impl<'a> AskedPolicy<'_, 'a> {
    /// The steps of a binding of the policy with this request, which the policy's constraints match.
    /// The error is that an allocation failed.
    pub fn binding_steps<'s>(
        &self,
        alloc: Global,
        state: &'s State<'a>,
        request: &Request<'_>,
        binding: &'s Binding<'a>,
    ) -> Result<Vec<Step<'s, 'a>>, AllocError>
        ensures steps { IfOk result (λ v. map step_view v.items ≡ binding_steps (state_view state.now) (asked_view self.now) (request_view request.now) (binding_view binding.now)) }
        ensures numbered { IfOk result (λ v. All (IsNumberedStep (state_view state.now).items) v.items) }
    {
        match binding.resources.matches(&request.attributes, state) {
            Answer::No => Ok(Vec::new(alloc)),
            Answer::Unknown => one_step(alloc, Step::UnknownMatch),
            Answer::Trouble(trouble) => self.trouble_steps(
                alloc,
                Some(binding.name),
                trouble,
                request.attributes.namespace,
            ),
            Answer::Yes => self.matched_steps(alloc, state, request, binding),
        }
    }

    /// The steps of a binding that matches.
    fn matched_steps<'s>(
        &self,
        alloc: Global,
        state: &'s State<'a>,
        request: &Request<'_>,
        binding: &'s Binding<'a>,
    ) -> Result<Vec<Step<'s, 'a>>, AllocError>
        ensures steps { IfOk result (λ v. map step_view v.items ≡ matched_steps (state_view state.now) (asked_view self.now) (request_view request.now) (binding_view binding.now)) }
        ensures numbered { IfOk result (λ v. All (IsNumberedStep (state_view state.now).items) v.items) }
    {
        let name = request.attributes.namespace;
        match self.params(alloc, state, binding, name) {
            Ok(params) => {
                let namespace = state.namespace_object(&request.kind, name);
                evaluations(alloc, binding, namespace, params.as_slice())
            }
            Err(ParamError::Memory) => Err(AllocError),
            Err(error) => self.param_error_steps(alloc, binding, error),
        }
    }

    /// The params of each evaluation under the binding, for a request in this namespace.
    fn params(
        &self,
        alloc: Global,
        state: &State<'a>,
        binding: &Binding<'a>,
        namespace: &str,
    ) -> Result<Vec<Option<Document<'a>>>, ParamError>
        ensures found { FindsParams (params_for (state_view state.now).objects (asked_view self.now).kind (binding_view binding.now).param_ref namespace.now) result }
        ensures numbered { IfOk result (λ v. All (IsNumberedIf (state_view state.now).items) v.items) }
    {
        match &self.kind {
            None => Ok(null_alone(alloc)?),
            Some(kind) => match &binding.param_ref {
                None => Ok(null_alone(alloc)?),
                Some(reference) => {
                    let params = state.params(alloc, kind, reference, namespace)?;
                    Ok(each_given(alloc, params.as_slice())?)
                }
            },
        }
    }

    /// An error of params denies if the policy fails closed.
    fn param_error_steps<'s>(
        &self,
        alloc: Global,
        binding: &Binding<'a>,
        error: ParamError,
    ) -> Result<Vec<Step<'s, 'a>>, AllocError>
        ensures { IfOk result (λ v. map step_view v.items ≡ error_steps (fails_closed (asked_view self.now).policy.document) (Some (binding_view binding.now).name) (param_error_text error)) }
    {
        self.error_steps(alloc, Some(binding.name), error.text())
    }

    /// A namespace whose labels are not known denies if the policy fails closed.
    fn trouble_steps<'s>(
        &self,
        alloc: Global,
        binding: Option<&'a str>,
        trouble: Trouble,
        namespace: &str,
    ) -> Result<Vec<Step<'s, 'a>>, AllocError>
        ensures { let is_closed = fails_closed (asked_view self.now).policy.document in
            IfOk result (λ v. map step_view v.items ≡ error_steps is_closed (option_map (λ s. s.now) binding.entry) (trouble_text trouble namespace.now)) }
    {
        let message = trouble_text(alloc, trouble, namespace)?;
        self.error_steps(alloc, binding, message.as_str())
    }

    /// An error denies if the policy fails closed.
    fn error_steps<'s>(
        &self,
        alloc: Global,
        binding: Option<&'a str>,
        message: &str,
    ) -> Result<Vec<Step<'s, 'a>>, AllocError>
        ensures { IfOk result (λ v. map step_view v.items ≡ error_steps (fails_closed (asked_view self.now).policy.document) (option_map (λ s. s.now) binding.entry) message.now) }
    {
        if self.policy.fails_closed() {
            let message = String::from_str(alloc, message)?;
            return one_step(alloc, Step::Denial { binding, message });
        }
        Ok(Vec::new(alloc))
    }
}

/// What the API server says if the labels of the namespace of this name are not known.
pub fn trouble_text(alloc: Global, trouble: Trouble, namespace: &str) -> Result<String, AllocError>
    ensures { IfOk result (λ s. string_bytes s ≡ trouble_text trouble namespace.now) }
{
    match trouble {
        Trouble::NoName => String::from_str(
            alloc,
            "Internal error occurred: resource name may not be empty",
        ),
        Trouble::NotFound => absent_text(alloc, namespace),
    }
}

/// What the API server says of a namespace that is not there.
#[tactic(auto, unfolding(crate::specs::Steps::absent_text))]
pub fn absent_text(alloc: Global, namespace: &str) -> Result<String, AllocError>
    ensures { IfOk result (λ s. string_bytes s ≡ absent_text namespace.now) }
{
    let name = go_quoted(alloc, namespace)?;
    ["namespaces ", name.as_str(), " not found"].concat(alloc)
}

fn null_alone<'a>(alloc: Global) -> Result<Vec<Option<Document<'a>>>, AllocError>
    ensures { IfOk result (λ v. v.items ≡ None ∷ []) }
{
    let mut params = Vec::new(alloc);
    params.push(None)?;
    Ok(params)
}

fn each_given<'a>(
    alloc: Global,
    objects: &[Document<'a>],
) -> Result<Vec<Option<Document<'a>>>, AllocError>
    ensures { IfOk result (λ v. v.items ≡ map Some objects.now) }
{
    let mut params = Vec::new(alloc);
    for object in objects {
        params.push(Some(*object))?;
    }
    Ok(params)
}

/// An evaluation with each of these params, unless the namespace is not found.
fn evaluations<'s, 'a>(
    alloc: Global,
    binding: &'s Binding<'a>,
    namespace: NamespaceObject<'a>,
    params: &[Option<Document<'a>>],
) -> Result<Vec<Step<'s, 'a>>, AllocError>
    ensures steps { IfOk result (λ v. map step_view v.items ≡ evaluations (binding_view binding.now) (namespace_object_view namespace.entry) (map (option_map (λ d. view d.value.now)) params.now)) }
    ensures numbered { (is : List Item) → IsNumberedNamespace is namespace.entry → All (IsNumberedIf is) params.now → IfOk result (λ v. All (IsNumberedStep is) v.items) }
{
    match namespace {
        NamespaceObject::Null => evaluations_in(alloc, binding, None, params),
        NamespaceObject::Object(object) => evaluations_in(alloc, binding, Some(object), params),
        NamespaceObject::NotFound => one_step(alloc, Step::NamespaceNotFound),
    }
}

fn evaluations_in<'s, 'a>(
    alloc: Global,
    binding: &'s Binding<'a>,
    namespace: Option<Document<'a>>,
    params: &[Option<Document<'a>>],
) -> Result<Vec<Step<'s, 'a>>, AllocError>
    ensures steps { let documents = map (option_map (λ d. view d.value.now)) params.now in
        IfOk result (λ v. map step_view v.items ≡ map (λ p. evaluates (binding_view binding.now) p (option_map (λ d. view d.value.now) namespace.entry)) documents) }
    ensures documents { IfOk result (λ v. map step_documents v.items ≡ map (λ p. (p, namespace.entry)) params.now) }
{
    let mut steps = Vec::new(alloc);
    for given in params {
        steps.push(Step::Evaluation {
            binding,
            params: *given,
            namespace,
        })?;
    }
    Ok(steps)
}

fn one_step<'s, 'a>(alloc: Global, step: Step<'s, 'a>) -> Result<Vec<Step<'s, 'a>>, AllocError>
    ensures { IfOk result (λ v. v.items ≡ step.entry ∷ []) }
{
    let mut steps = Vec::new(alloc);
    steps.push(step)?;
    Ok(steps)
}
