//! A requirement of a selector.
ghost use Rattle.std.specs.Prelude.{◌≡◌, bytes_eq, map, string_bytes};
ghost use Rattle.std.specs.List.{list_any};
ghost use Rattle.label_selectors.specs.Selectors.{fits, is_one_of, requirement_view};

use crate::labels::Labels;
use crate::operator::Operator;

/// A requirement of `matchExpressions` on one label (LabelSelectorRequirement).
#[derive(Debug, Drop)]
pub struct Requirement {
    pub key: String,
    pub operator: Operator,
    pub values: Vec<String>,
}

impl Requirement {
    /// Whether the labels fit the requirement.
    pub fn fits<L: Labels>(&self, labels: &L) -> bool
        ensures { result ≡ fits (L.map labels.now) (requirement_view self.now) }
    {
        match labels.value(self.key.as_str()) {
            Some(value) => match self.operator {
                Operator::In => is_one_of(value, &self.values),
                Operator::NotIn => !is_one_of(value, &self.values),
                Operator::Exists => true,
                Operator::DoesNotExist => false,
            },
            None => match self.operator {
                Operator::In | Operator::Exists => false,
                Operator::NotIn | Operator::DoesNotExist => true,
            },
        }
    }
}

/// Whether the value is one of the texts.
fn is_one_of(value: &str, texts: &[String]) -> bool
    ensures { result ≡ is_one_of value.now (map string_bytes texts.now) }
{
    some_is(value, texts)
}

fn some_is(value: &str, texts: &[String]) -> bool
    ensures { result ≡ list_any (λ t. bytes_eq value.now (string_bytes t)) texts.now }
{
    texts.iter().any(|text| value == text.as_str())
}
