//! Labels in a list.
ghost use Rattle.std.specs.Prelude.{◌≡◌, option_map};
ghost use Rattle.label_selectors.specs.Selectors.{labels_of, pairs_view};

use crate::labels::Labels;

/// Labels as pairs of a key and its value. If a key is repeated, the first pair counts.
#[derive(Clone, Copy, Debug, Drop)]
pub struct LabelPairs<'a> {
    pub pairs: &'a [(&'a str, &'a str)],
}

impl Labels for LabelPairs<'_> {
    ghost map = { λ l. labels_of (pairs_view l.pairs.now) };

    fn value(&self, key: &str) -> Option<&str> {
        value_in(self.pairs, key)
    }
}

/// The value of the first pair with this key.
fn value_in<'a>(pairs: &'a [(&'a str, &'a str)], key: &str) -> Option<&'a str>
    ensures { option_map (λ v. v.now) result ≡ labels_of (pairs_view pairs.entry.now) key.now }
{
    for pair in pairs {
        if pair.0 == key {
            return Some(pair.1);
        }
    }
    None
}
