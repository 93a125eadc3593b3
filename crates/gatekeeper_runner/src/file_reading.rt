//! Reads files, and names a file in its refusal.
ghost use Rattle.std.specs.Prelude.{◌≡◌, option_map, string_bytes};
ghost use Rattle.gatekeeper_runner.specs.FileFaults.{IsRefusalOf, ReadsFrom, ReadsGiven};

use crate::cluster_fault::ClusterFault;
use crate::file_fault::FileFault;
use crate::start_refusal::StartRefusal;
use cli::Refusal;
use host::ReadableFiles;
use std::alloc::Global;

/// The bytes of the file with this name.
pub fn read_file<F: ReadableFiles>(
    alloc: Global,
    name: &str,
    files: &mut F,
) -> Result<Vec<u8>, StartRefusal>
    ensures read { ReadsFrom (F.known files.old) name.now result }
    ensures known { F.known files.new ≡ F.known files.old }
{
    match files.read_file(alloc, name) {
        Ok(bytes) => Ok(bytes),
        Err(error) => Err(in_file(alloc, name, FileFault::from(error))),
    }
}

/// The bytes of the file with this name, if there is a name.
pub fn read_optional<F: ReadableFiles>(
    alloc: Global,
    name: &Option<String>,
    files: &mut F,
) -> Result<Option<Vec<u8>>, StartRefusal>
    ensures read { ReadsGiven (F.known files.old) (option_map string_bytes name.now) result }
    ensures known { F.known files.new ≡ F.known files.old }
{
    match name {
        Some(name) => Ok(Some(read_file(alloc, name.as_str(), files)?)),
        None => Ok(None),
    }
}

/// The refusal of the file with this name for a fault. If the name cannot be copied, it is `Memory`.
pub fn in_file(alloc: Global, name: &str, fault: FileFault) -> StartRefusal
    ensures { IsRefusalOf name.now fault result }
{
    match String::from_str(alloc, name) {
        Ok(told) => StartRefusal::Cluster(ClusterFault::InFile(told, fault)),
        Err(_) => StartRefusal::Plain(Refusal::Memory),
    }
}
