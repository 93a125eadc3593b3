//! Clusters that are opened, and why one is not.
ghost use Rattle.std.specs.Prelude.{◌≡◌, get_or, map, string_bytes, Err, [], Option};
ghost use Rattle.serde_json.specs.View.{view};
ghost use Rattle.host.specs.FileSystem.{FileSystem};
ghost use Rattle.cluster_state.specs.Refusals.{IsDueRefusal};
ghost use Rattle.cluster_state.specs.State.{state_of, state_view};
ghost use Rattle.gatekeeper_runner.specs.Cluster.Lines.{OpensKeeper};
ghost use Rattle.gatekeeper_runner.specs.Cluster.Starting.{ClusterStarts, HoldLists, IsNotListed};
ghost use Rattle.gatekeeper_runner.specs.Orders.{cluster_order_view};

use crate::cluster::keeper::ClusterKeeper;
use crate::cluster::task::ClusterTask;
use crate::cluster::telling::policies_text;
use crate::cluster_fault::ClusterFault;
use crate::start_refusal::StartRefusal;
use cli::Refusal;
use cluster_gate::Cluster;
use cluster_state::{State, StateError};

/// The cluster with this state, and the lines on its policies.
///
/// # Errors
///
/// The first policy that is blocked, unless that is allowed. `Memory` if an allocation fails.
pub fn open_cluster<'s, 'a>(
    task: &'a ClusterTask,
    state: &'s State<'a>,
) -> Result<ClusterKeeper<'s, 'a>, StartRefusal>
    ensures { OpensKeeper (map view task.now.lists.items) (cluster_order_view task.now.order) (state_view state.now) result }
{
    let cluster = Cluster::new(
        task.order.alloc,
        state,
        task.order.settings.language,
        task.order.partial,
    )?;
    let told = policies_text(task.order.alloc, &task.lists, state, cluster.policies())?;
    Ok(ClusterKeeper {
        alloc: task.order.alloc,
        cluster,
        limits: task.order.settings.limits,
        told,
    })
}

/// Why there is no state in the lists of a task.
pub fn state_refusal(task: &ClusterTask, error: StateError) -> StartRefusal
    ensures { (known : Option FileSystem) → HoldLists known (map string_bytes task.now.order.files.items) (map view task.now.lists.items)
        → IsDueRefusal (state_of (map view task.now.lists.items)) error → ClusterStarts known (cluster_order_view task.now.order) (Err result) }
{
    match error {
        StateError::NotAList(place) => not_listed(task, place),
        other => StartRefusal::from(other),
    }
}

/// The file at this place holds no List.
fn not_listed(task: &ClusterTask, place: usize) -> StartRefusal
    ensures { IsNotListed (map string_bytes task.now.order.files.items) place result }
{
    match String::from_str(task.order.alloc, name_at(&task.order.files, place)) {
        Ok(name) => StartRefusal::Cluster(ClusterFault::NoList(name)),
        Err(_) => StartRefusal::Plain(Refusal::Memory),
    }
}

/// The name at this place, or the empty name if there is none.
fn name_at(names: &[String], place: usize) -> &str
    ensures { result.now ≡ get_or (map string_bytes names.now) place [] }
{
    match names.get(place) {
        Some(name) => name.as_str(),
        None => "",
    }
}
