//! The program as a whole cluster.
ghost use Rattle.std.specs.Prelude.{◌≡◌, map, string_bytes, Ok, Option};
ghost use Rattle.std.specs.Process.{exit_status};
ghost use Rattle.serde_json.specs.View.{view};
ghost use Rattle.streams.specs.Streams.{stream};
ghost use Rattle.host.specs.FileSystem.{FileSystem};
ghost use Rattle.policy_glue.specs.OneImage.{OneImage};
ghost use Rattle.cluster_state.specs.State.{state_of, state_view, ClusterState};
ghost use Rattle.gatekeeper_runner.specs.Cluster.Starting.{HoldLists};
ghost use Rattle.gatekeeper_runner.specs.Orders.{cluster_order_view};
ghost use Rattle.gatekeeper_runner.specs.Program.{ClusterEnds};

mod answering;
mod keeper;
mod listed;
mod listing;
mod opening;
pub mod order;
mod task;
pub mod telling;

use crate::endings::{end_lines, end_start, tell_bytes};
use cluster_state::State;
use host::ReadableFiles;
use line_answers::LineRules;
use listing::read_lists;
use opening::{open_cluster, state_refusal};
use order::ClusterOrder;
use std::process::ExitCode;
use streams::{LineSource, Sink};
use task::ClusterTask;

/// Answers the lines as the cluster does whose lists the order names. Returns the code.
pub fn answer_as_cluster<F: ReadableFiles, R: LineSource, W: Sink, E: Sink>(
    order: ClusterOrder,
    files: &mut F,
    requests: &mut R,
    answers: &mut W,
    errors: &mut E,
) -> ExitCode
    ensures ends { ClusterEnds OneImage (F.known files.old) (cluster_order_view order) (stream (R.left requests.old) (R.failed requests.old)) (stream (R.left requests.new) (R.failed requests.new))
        (stream (W.taken answers.old) (W.failed answers.old)) (stream (W.taken answers.new) (W.failed answers.new))
        (stream (E.taken errors.old) (E.failed errors.old)) (stream (E.taken errors.new) (E.failed errors.new)) (exit_status result) }
    ensures known { F.known files.new ≡ F.known files.old }
{
    match read_lists(order.alloc, order.files.as_slice(), files) {
        Ok(lists) => answer_by_lists(&ClusterTask { order, lists }, requests, answers, errors),
        Err(refusal) => end_start(order.alloc, refusal, errors),
    }
}

/// Answers the lines as the cluster with these lists does.
fn answer_by_lists<R: LineSource, W: Sink, E: Sink>(
    task: &ClusterTask,
    requests: &mut R,
    answers: &mut W,
    errors: &mut E,
) -> ExitCode
    ensures { (known : Option FileSystem) → HoldLists known (map string_bytes task.now.order.files.items) (map view task.now.lists.items)
        → ClusterEnds OneImage known (cluster_order_view task.now.order) (stream (R.left requests.old) (R.failed requests.old)) (stream (R.left requests.new) (R.failed requests.new))
        (stream (W.taken answers.old) (W.failed answers.old)) (stream (W.taken answers.new) (W.failed answers.new))
        (stream (E.taken errors.old) (E.failed errors.old)) (stream (E.taken errors.new) (E.failed errors.new)) (exit_status result) }
{
    match State::read(task.order.alloc, task.lists.as_slice()) {
        Ok(state) => answer_by_state(task, &state, requests, answers, errors),
        Err(error) => end_start(task.order.alloc, state_refusal(task, error), errors),
    }
}

/// Writes a line to standard error for each policy of the cluster with this state, and then answers
/// the lines as it does.
fn answer_by_state<'s, 'a, R: LineSource, W: Sink, E: Sink>(
    task: &'a ClusterTask,
    state: &'s State<'a>,
    requests: &mut R,
    answers: &mut W,
    errors: &mut E,
) -> ExitCode
    ensures { (known : Option FileSystem) (s : ClusterState) → HoldLists known (map string_bytes task.now.order.files.items) (map view task.now.lists.items)
        → state_of (map view task.now.lists.items) ≡ Ok s → state_view state.now ≡ s
        → ClusterEnds OneImage known (cluster_order_view task.now.order) (stream (R.left requests.old) (R.failed requests.old)) (stream (R.left requests.new) (R.failed requests.new))
        (stream (W.taken answers.old) (W.failed answers.old)) (stream (W.taken answers.new) (W.failed answers.new))
        (stream (E.taken errors.old) (E.failed errors.old)) (stream (E.taken errors.new) (E.failed errors.new)) (exit_status result) }
{
    match open_cluster(task, state) {
        Ok(keeper) => {
            tell_bytes(keeper.told.as_slice(), errors);
            let rules = LineRules {
                alloc: keeper.alloc,
                decider: &keeper,
                max_line: task.order.settings.max_line,
            };
            end_lines(&rules, task.order.settings, requests, answers, errors)
        }
        Err(refusal) => end_start(task.order.alloc, refusal, errors),
    }
}
