//! The line of standard error on a cluster's state or a file that is refused.
ghost use Rattle.std.specs.Prelude.{◌≡◌, ◌++◌, codes, decimal, IfOk, OnOk};
ghost use Rattle.gatekeeper_runner.specs.Cluster.Starting.{code_and_name, fault_line, fault_text, state_text};
ghost use Rattle.gatekeeper_runner.specs.FileFaults.{file_front, file_text};

use crate::cluster::telling::add_cause;
use crate::cluster_fault::ClusterFault;
use crate::file_fault::FileFault;
use cli::{add_number, add_policy, add_wide};
use cluster_state::StateError;
use std::alloc::{AllocError, Global};

/// The line of standard error.
pub fn fault_line(alloc: Global, fault: &ClusterFault) -> Result<Vec<u8>, AllocError>
    ensures { IfOk result (λ l. l.items ≡ fault_line fault.now) }
{
    let mut line = Vec::from_slice(alloc, b"celbpf: ")?;
    add_fault(alloc, &mut line, fault)?;
    line.extend_from_slice(b"\n")?;
    Ok(line)
}

/// Adds the text of a fault.
fn add_fault(alloc: Global, line: &mut Vec<u8>, fault: &ClusterFault) -> Result<(), AllocError>
    ensures { OnOk result (line.new.items ≡ line.old.items ++ fault_text fault.now) }
{
    match fault {
        ClusterFault::NoList(name) => add_named(line, "C1", name.as_str()),
        ClusterFault::NoState(error) => add_state(line, error),
        ClusterFault::Blocked(name, cause) => {
            add_named(line, cause.refusal().code(), name.as_str())?;
            add_cause(alloc, line, cause)
        }
        ClusterFault::InFile(name, fault) => add_file(alloc, line, name.as_str(), fault),
    }
}

/// Adds what is wrong with the file of this name.
fn add_file(
    alloc: Global,
    line: &mut Vec<u8>,
    name: &str,
    fault: &FileFault,
) -> Result<(), AllocError>
    ensures { OnOk result (line.new.items ≡ line.old.items ++ file_text name.now fault.now) }
{
    match fault {
        FileFault::Unread(why) => {
            add_front(line, name)?;
            add_text(line, why.text())
        }
        FileFault::Refused(error) => {
            add_front(line, name)?;
            add_policy(alloc, line, *error)
        }
        FileFault::RefusedWide(error) => {
            add_front(line, name)?;
            add_wide(alloc, line, error)
        }
        FileFault::Memory => add_text(line, "memory"),
    }
}

/// Adds the name of a file, before what is wrong with it.
fn add_front(line: &mut Vec<u8>, name: &str) -> Result<(), AllocError>
    ensures { OnOk result (line.new.items ≡ line.old.items ++ file_front name.now) }
{
    add_text(line, name)?;
    add_text(line, ": ")
}

/// Adds why lists are not the state of a cluster.
fn add_state(line: &mut Vec<u8>, error: &StateError) -> Result<(), AllocError>
    ensures { OnOk result (line.new.items ≡ line.old.items ++ state_text error.now) }
{
    match error {
        StateError::NotAList(place) => add_placed(line, "C1 ", *place),
        StateError::InvalidItem(place) => add_placed(line, "C2 ", *place),
        StateError::DuplicateItem(name) => add_named(line, "C3", name.as_str()),
        StateError::NoNamespace => add_text(line, "C4"),
        StateError::InvalidBinding(name, part) => {
            add_named(line, "C5", name.as_str())?;
            add_part(line, part.path())
        }
        StateError::InvalidPolicy(name) => add_named(line, "C6", name.as_str()),
        StateError::Memory => add_text(line, "memory"),
    }
}

/// Adds the path of an invalid part, after a name.
fn add_part(line: &mut Vec<u8>, path: &str) -> Result<(), AllocError>
    ensures { OnOk result (line.new.items ≡ line.old.items ++ (codes ": " ++ path.now)) }
{
    add_text(line, ": ")?;
    add_text(line, path)
}

/// Adds a code and a name.
fn add_named(line: &mut Vec<u8>, code: &str, name: &str) -> Result<(), AllocError>
    ensures { OnOk result (line.new.items ≡ line.old.items ++ code_and_name code.now name.now) }
{
    add_text(line, code)?;
    add_text(line, " ")?;
    add_text(line, name)
}

/// Adds a text and a number.
fn add_placed(line: &mut Vec<u8>, text: &str, place: usize) -> Result<(), AllocError>
    ensures { OnOk result (line.new.items ≡ line.old.items ++ (text.now ++ decimal place)) }
{
    add_text(line, text)?;
    add_number(line, place)
}

/// Adds a text.
fn add_text(line: &mut Vec<u8>, text: &str) -> Result<(), AllocError>
    ensures { OnOk result (line.new.items ≡ line.old.items ++ text.now) }
{
    line.extend_from_slice(text.as_bytes())?;
    Ok(())
}
