//! Laws of the measures. Each is the contract of an empty function.

ghost use Rattle.cel_measures.specs.Rows.{MeasureRowsHold};
ghost use Rattle.cel_measures.specs.SourceMeasures.{SameNodes, SameNeed, SameDepth};

/// Expressions have the measures that were worked out by hand.
pub fn rows_stand()
    ensures { MeasureRowsHold }
{}

/// The number of nodes, the need of stack words and the depth are the same for a source expression
/// and for its expansion.
pub fn source_measures()
    ensures nodes { SameNodes }
    ensures need { SameNeed }
    ensures depth { SameDepth }
{}
