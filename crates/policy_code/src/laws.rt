//! Laws of the programs of policies. Each is the clause of a function that does nothing.
ghost use Rattle.policy_code.specs.ProgramLaws.{PolicyDecides};
ghost use Rattle.policy_code.specs.ProgramTrees.{ProgramDecides, ProgramIsCode, ProgramIsShort, ProgramStops};

use bpf_machine::laws::decodes_spelling;

/// The code of a policy, composed of the code of its expressions, leaves the policy's verdict in
/// the verdict words and its outcome in R0, or stops for its charge or a depth, after its steps and
/// those of its variables.
pub fn policy_decides()
    ensures { PolicyDecides }
{
    decodes_spelling();
}

/// The program of a policy has at most 128 slots for each of the policy's nodes, and can be
/// encoded.
#[tactic(auto, using(crate::proofs::Programs::Sizes::program_is_short, crate::proofs::Programs::Sizes::program_is_code))]
pub fn program_is_code()
    ensures short { ProgramIsShort }
    ensures code { ProgramIsCode }
{}

/// The program of a policy, run from the start, has decided as the policy does after 128 steps for
/// each unit of the policy's work, and also if it stopped earlier. Either it left the verdict, or
/// it was stopped: because 16 of charge for each unit of the policy's cost pass the limit, or
/// because a value is too deep.
#[tactic(auto, using(crate::proofs::Programs::Runs::program_decides, crate::proofs::Programs::Sizes::program_is_code, crate::proofs::Programs::Runs::program_stops))]
pub fn program_decides()
    ensures decides { ProgramDecides }
    ensures stops { ProgramStops }
{
    decodes_spelling();
}
