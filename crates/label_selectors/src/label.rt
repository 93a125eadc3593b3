//! A label of a selector's `matchLabels`.
ghost use Rattle.std.specs.Prelude.{◌≡◌};
ghost use Rattle.label_selectors.specs.Selectors.{fits, label_requirement, label_view};

use crate::labels::Labels;

/// A label that `matchLabels` requires.
#[derive(Debug, Drop)]
pub struct Label {
    pub key: String,
    pub value: String,
}

impl Label {
    /// Whether the labels include this label with this value.
    pub fn fits<L: Labels>(&self, labels: &L) -> bool
        ensures { result ≡ fits (L.map labels.now) (label_requirement (label_view self.now)) }
    {
        match labels.value(self.key.as_str()) {
            Some(value) => value == self.value.as_str(),
            None => false,
        }
    }
}
