//! The parts of a binding that may be invalid.
ghost use Rattle.std.specs.Prelude.{◌≡◌, Some};
ghost use Rattle.cluster_state.specs.Parts.{binding_part_path};

use std::fmt;

/// A part of a binding that the API server does not store. If several are invalid, the first of
/// this list is reported.
#[derive(Clone, Copy, Debug, PartialEq, Eq)]
pub enum BindingPart {
    /// The specification is absent or no object, or one of its keys is unknown.
    Spec,
    PolicyName,
    ValidationActions,
    MatchResources,
    ParamRef,
}

impl BindingPart {
    /// The path of the part in a manifest.
    pub fn path(self) -> &'static str
        ensures { result.now ≡ binding_part_path self }
    {
        match self {
            BindingPart::Spec => "spec",
            BindingPart::PolicyName => "spec.policyName",
            BindingPart::ValidationActions => "spec.validationActions",
            BindingPart::MatchResources => "spec.matchResources",
            BindingPart::ParamRef => "spec.paramRef",
        }
    }
}

impl fmt::Display for BindingPart {
    ghost output = { λ p. Some (binding_part_path p) };

    fn fmt<W: fmt::Write>(&self, f: &mut fmt::Formatter<W>) -> fmt::Result {
        f.write_str(self.path())
    }
}
