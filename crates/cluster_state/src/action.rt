//! The actions of bindings for a validation that is false.
ghost use Rattle.std.specs.Prelude.{◌≡◌};
ghost use Rattle.cluster_state.specs.Bindings.{action_named, is_action};

/// What happens if a validation is false (ValidationAction).
#[derive(Clone, Copy, Debug, PartialEq, Eq)]
pub enum Action {
    Deny,
    Warn,
    Audit,
}

impl Action {
    /// The action with this name.
    pub fn named(name: &str) -> Option<Action>
        ensures { result ≡ action_named name.now }
    {
        match name {
            "Deny" => Some(Action::Deny),
            "Warn" => Some(Action::Warn),
            "Audit" => Some(Action::Audit),
            _ => None,
        }
    }

    pub(crate) fn is(self, other: Action) -> bool
        ensures { result ≡ is_action self other }
    {
        match self {
            Action::Deny => match other {
                Action::Deny => true,
                Action::Warn | Action::Audit => false,
            },
            Action::Warn => match other {
                Action::Warn => true,
                Action::Deny | Action::Audit => false,
            },
            Action::Audit => match other {
                Action::Audit => true,
                Action::Deny | Action::Warn => false,
            },
        }
    }
}
