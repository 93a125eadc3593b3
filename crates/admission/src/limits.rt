//! What a policy's program may take on one review.

/// What a policy's program may take on one review. Each evaluation has limits of its own.
#[derive(Clone, Copy, Debug, PartialEq, Eq)]
pub struct Limits {
    /// The most steps.
    pub steps: u64,
    /// The most bytes that its helper calls may read together; the greatest word is no limit.
    pub reads: u64,
}

impl Limits {
    ghost use Rattle.std.specs.Prelude.{◌≡◌};
    ghost use Rattle.admission.specs.Standing.{steps_alone};

    /// These steps, and no limit of reads.
    pub fn of_steps(steps: u64) -> Limits
        ensures { result ≡ steps_alone steps }
    {
        Limits {
            steps,
            reads: u64::MAX,
        }
    }
}
