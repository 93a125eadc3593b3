//! Labels and their slots.

ghost use Rattle.std.specs.Prelude.{◌≡◌};
ghost use Rattle.std.specs.BTreeMap.{get_by_text};
ghost use Rattle.assembler.specs.Answers.{AddsLabel};
ghost use Rattle.assembler.specs.Items.{item_of};

use crate::asm_error::AsmError;
use crate::lines::line::Line;
use std::alloc::Global;
use std::collections::BTreeMap;

/// The slot of each label.
pub(crate) type Labels = BTreeMap<String, u32>;

/// The slot of the label.
pub(crate) fn slot_of(labels: &Labels, name: &str) -> Option<u32>
    ensures { result ≡ get_by_text labels.now name.now }
{
    labels.get(name).copied()
}

/// Gives the label this slot, if the line defines one. `number` is the line's, counted from 1.
///
/// # Errors
///
/// `DuplicateLabel` if the label already has a slot.
pub(crate) fn add_label(
    alloc: Global,
    labels: &mut Labels,
    line: &Line<'_>,
    slot: u32,
    number: usize,
) -> Result<(), AsmError>
    ensures { AddsLabel (λ q. get_by_text labels.old q) (λ q. get_by_text labels.new q) (item_of line.now) slot number result }
{
    let Line::Label(name) = *line else {
        return Ok(());
    };
    match slot_of(labels, name) {
        Some(_) => Err(AsmError::DuplicateLabel(number)),
        None => {
            let key = String::from_str(alloc, name)?;
            labels.insert(key, slot)?;
            Ok(())
        }
    }
}
