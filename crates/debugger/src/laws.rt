//! Laws of sessions, each proved as the contract of an empty function.
#![tactic(auto, using(crate::proofs::Order::stays_in_order, crate::proofs::Slots::sets_and_clears, crate::proofs::Whole::answers_in_lines, crate::proofs::Words::commands_have_lines))]

ghost use Rattle.debugger.specs.Breakpoints.{SetsAndClears};
ghost use Rattle.debugger.specs.CommandLines.{CommandsHaveLines};
ghost use Rattle.debugger.specs.Rows.{AnswersInLines, SessionRowsHold, StaysInOrder, TellsAll};

/// Sessions worked out by hand.
pub fn rows_stand()
    ensures { SessionRowsHold }
{}

/// A line is parsed as the command of which it is a line, and as unknown if there is none.
pub fn commands_have_lines()
    ensures { CommandsHaveLines }
{}

/// The text of a session without a reply `? memory` is complete for its lines.
pub fn tells_all()
    ensures { TellsAll }
{}

/// Every reply is whole lines.
pub fn answers_in_lines()
    ensures { AnswersInLines }
{}

/// Setting and clearing a breakpoint affects only this slot.
pub fn sets_and_clears()
    ensures { SetsAndClears }
{}

/// The breakpoints of a session are in order without duplicates.
pub fn stays_in_order()
    ensures { StaysInOrder }
{}
