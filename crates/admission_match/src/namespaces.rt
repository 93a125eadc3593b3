//! The namespaces of a cluster.
ghost use Rattle.std.specs.Prelude.{◌≡◌, option_map};
ghost use Rattle.admission_match.specs.Matching.{Namespaces};
ghost use Rattle.label_selectors.specs.Selectors.{selector_view, selects};

use label_selectors::LabelSelector;

/// The namespaces of a cluster, by name.
pub trait Namespaces {
    /// The labels of each existing namespace.
    ghost labels: { Self → Namespaces };

    /// Whether the selector selects the namespace with this name; `None` if there is no such
    /// namespace.
    fn selected(&self, name: &str, selector: &LabelSelector) -> Option<bool>
        ensures { result ≡ option_map (selects (selector_view selector.now)) (labels self.now name.now) };
}
