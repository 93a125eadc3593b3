//! Prepares the gatekeeper before the first line.
ghost use Rattle.std.specs.Prelude.{◌≡◌, map, string_bytes};
ghost use Rattle.gatekeeper_runner.specs.Orders.{order_view};
ghost use Rattle.gatekeeper_runner.specs.Policies.Starting.{GatesFrom, KeepsFrom, OpensPolicyFile, OpensIn, OpensNamed};

use crate::file_fault::FileFault;
use crate::file_reading::{in_file, read_optional};
use crate::labeling::label_of;
use crate::policies::gatekeeper::Gatekeeper;
use crate::policies::named_gate::NamedGate;
use crate::policies::order::PolicyOrder;
use crate::start_refusal::StartRefusal;
use admission::{Gate, Language, WideGate};
use host::ReadableFiles;
use review_tables::SharedDocuments;
use std::alloc::Global;

/// Compiles the policies in the files that the order names, in order, and then reads the other
/// files.
///
/// # Errors
///
/// The first refusal: of a policy's file or its policy, then of the namespace's file, then of the
/// params' file. `Memory` if an allocation fails, which implies nothing about the files.
pub fn start<F: ReadableFiles>(
    alloc: Global,
    order: &PolicyOrder,
    files: &mut F,
) -> Result<Gatekeeper, StartRefusal>
    ensures keeps { KeepsFrom (F.known files.old) (order_view order.now) result }
    ensures known { F.known files.new ≡ F.known files.old }
{
    let gates = open_each(
        alloc,
        order.policies.as_slice(),
        order.settings.language,
        files,
    )?;
    let namespace = read_optional(alloc, &order.namespace, files)?;
    let params = read_optional(alloc, &order.params, files)?;
    let documents = SharedDocuments::new(alloc, namespace, params);
    Ok(Gatekeeper {
        alloc,
        gates,
        documents,
        limits: order.settings.limits,
        max_line: order.settings.max_line,
    })
}

/// Compiles the policies of this language in the files with these names.
fn open_each<F: ReadableFiles>(
    alloc: Global,
    names: &[String],
    language: Language,
    files: &mut F,
) -> Result<Vec<NamedGate>, StartRefusal>
    ensures gates { GatesFrom (F.known files.old) language (map string_bytes names.now) result }
    ensures known { F.known files.new ≡ F.known files.old }
{
    let mut gates = Vec::new(alloc);
    for name in names {
        let gate = open(alloc, name.as_str(), language, files)?;
        gates.push(gate)?;
    }
    Ok(gates)
}

/// Compiles the policy of this language in the file with this name.
fn open<F: ReadableFiles>(
    alloc: Global,
    name: &str,
    language: Language,
    files: &mut F,
) -> Result<NamedGate, StartRefusal>
    ensures gate { OpensNamed (F.known files.old) language name.now result }
    ensures known { F.known files.new ≡ F.known files.old }
{
    match open_file(alloc, name, language, files) {
        Ok(gate) => Ok(gate),
        Err(fault) => Err(in_file(alloc, name, fault)),
    }
}

/// Compiles the policy of this language in the file with this name, or says what is wrong with the
/// file.
fn open_file<F: ReadableFiles>(
    alloc: Global,
    name: &str,
    language: Language,
    files: &mut F,
) -> Result<NamedGate, FileFault>
    ensures gate { OpensPolicyFile (F.known files.old) language name.now result }
    ensures known { F.known files.new ≡ F.known files.old }
{
    let document = files.read_file(alloc, name)?;
    let gate = gate_of(alloc, document.as_slice(), language)?;
    let label = label_of(alloc, name, document.as_slice())?;
    Ok(NamedGate { gate, label })
}

/// The gate of the policy of this language in a document.
fn gate_of(alloc: Global, document: &[u8], language: Language) -> Result<Gate, FileFault>
    ensures { OpensIn language document.now result }
{
    match language {
        Language::Profile => {
            let gate = Gate::new(alloc, document)?;
            Ok(gate)
        }
        Language::Wide(rule) => {
            let opened = WideGate::new(alloc, document, rule)?;
            Ok(opened.gate)
        }
    }
}
