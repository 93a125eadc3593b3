//! The lists of a cluster's state, from files.
ghost use Rattle.std.specs.Prelude.{◌≡◌, map, string_bytes};
ghost use Rattle.gatekeeper_runner.specs.Cluster.Starting.{ListRead, ListsRead};

use crate::cluster_fault::ClusterFault;
use crate::file_reading::read_file;
use crate::start_refusal::StartRefusal;
use cluster_state::parse;
use host::ReadableFiles;
use serde_json::Value;
use std::alloc::Global;

/// The documents in the files of these names.
///
/// # Errors
///
/// The first file that is not read or is not JSON. `Memory` if an allocation fails, which implies
/// nothing about the rest.
pub fn read_lists<F: ReadableFiles>(
    alloc: Global,
    names: &[String],
    files: &mut F,
) -> Result<Vec<Value>, StartRefusal>
    ensures lists { ListsRead (F.known files.old) (map string_bytes names.now) result }
    ensures known { F.known files.new ≡ F.known files.old }
{
    let mut lists = Vec::new(alloc);
    for name in names {
        let list = read_list(alloc, name.as_str(), files)?;
        lists.push(list)?;
    }
    Ok(lists)
}

/// The document in the file of this name.
fn read_list<F: ReadableFiles>(
    alloc: Global,
    name: &str,
    files: &mut F,
) -> Result<Value, StartRefusal>
    ensures list { ListRead (F.known files.old) name.now result }
    ensures known { F.known files.new ≡ F.known files.old }
{
    let text = read_file(alloc, name, files)?;
    match parse(alloc, text.as_slice())? {
        Some(list) => Ok(list),
        None => {
            let name = String::from_str(alloc, name)?;
            Err(StartRefusal::Cluster(ClusterFault::NoList(name)))
        }
    }
}
