//! The operators of a requirement.
ghost use Rattle.std.specs.Prelude.{◌≡◌};
ghost use Rattle.label_selectors.specs.Storing.{operator_named};

/// How a requirement compares a label with its values (LabelSelectorOperator).
#[derive(Clone, Copy, Debug, PartialEq, Eq)]
pub enum Operator {
    /// The label is present and has one of the values.
    In,
    /// The label is absent or has none of the values.
    NotIn,
    /// The label is present.
    Exists,
    /// The label is absent.
    DoesNotExist,
}

impl Operator {
    /// The operator with this name in the API.
    pub fn named(name: &str) -> Option<Operator>
        ensures { result ≡ operator_named name.now }
    {
        match name {
            "In" => Some(Operator::In),
            "NotIn" => Some(Operator::NotIn),
            "Exists" => Some(Operator::Exists),
            "DoesNotExist" => Some(Operator::DoesNotExist),
            _ => None,
        }
    }
}
