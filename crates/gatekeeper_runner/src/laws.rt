//! Laws: what is proved of the answers in general. Each is the clause of a function that does
//! nothing.
ghost use Rattle.gatekeeper_runner.specs.SameAnswers.{ClusterLinesHaveOneAnswer, LinesHaveOneAnswer};

use admission::laws::reviews_once;
use cluster_gate::laws::{one_answer, states_are_shallow};
use policy_glue::laws::compiles_once;

/// Under the same policies, documents and limits a line has one answer. It does not depend on the
/// lines before it, unless an allocation fails.
pub fn answers_once()
    ensures { LinesHaveOneAnswer }
{
    compiles_once();
    reviews_once();
}

/// A cluster that was read from files has one answer to a line, unless an allocation fails.
pub fn cluster_answers_once()
    ensures { ClusterLinesHaveOneAnswer }
{
    one_answer();
    states_are_shallow();
}
