//! Label selectors.
ghost use Rattle.std.specs.Prelude.{◌≡◌, map};
ghost use Rattle.std.specs.List.{list_all};
ghost use Rattle.label_selectors.specs.Selectors.{fits, is_empty, label_requirement, label_view, requirement_view, selector_view, selects};

use crate::label::Label;
use crate::labels::Labels;
use crate::requirement::Requirement;

/// A query on labels (LabelSelector, `meta/v1`). All its requirements must fit.
#[derive(Debug, Drop)]
pub struct LabelSelector {
    pub match_labels: Vec<Label>,
    pub match_expressions: Vec<Requirement>,
}

impl LabelSelector {
    /// Whether it has no requirement and so selects everything.
    #[tactic(auto, using(crate::proofs::Parts::none_of_parts))]
    pub fn is_empty(&self) -> bool
        ensures { result ≡ is_empty (selector_view self.now) }
    {
        self.match_labels.is_empty() && self.match_expressions.is_empty()
    }

    /// Whether it selects an object with these labels.
    #[tactic(auto, using(crate::proofs::Parts::all_of_parts))]
    pub fn selects<L: Labels>(&self, labels: &L) -> bool
        ensures { result ≡ selects (selector_view self.now) (L.map labels.now) }
    {
        labels_fit(&self.match_labels, labels) && expressions_fit(&self.match_expressions, labels)
    }
}

/// Whether the labels include all that `matchLabels` requires.
fn labels_fit<L: Labels>(wanted: &[Label], labels: &L) -> bool
    ensures { result ≡ list_all (λ l. fits (L.map labels.now) (label_requirement (label_view l))) wanted.now }
{
    wanted.iter().all(|label| label.fits(labels))
}

/// Whether the labels fit each requirement.
fn expressions_fit<L: Labels>(requirements: &[Requirement], labels: &L) -> bool
    ensures { result ≡ list_all (λ r. fits (L.map labels.now) (requirement_view r)) requirements.now }
{
    requirements
        .iter()
        .all(|requirement| requirement.fits(labels))
}
