//! The objects that a binding selects as params.

use label_selectors::LabelSelector;

/// Which objects are params: the one with a name, or those that a selector selects.
#[derive(Debug, Drop)]
pub enum ParamChoice<'a> {
    Named(&'a str),
    Selected(LabelSelector),
}
