//! Laws: what is proved of sessions in general. Each is the clause of a function that does nothing.
ghost use Rattle.review_runner.specs.Telling.{VerdictIsTold};

use admission::laws::roots_have_values;

/// A session with the image of a policy on the documents of a review starts where the review's run
/// does. Whenever it shows that the run has stopped, after any lines, `w` prints the words of the
/// policy's verdict with the references of its messages; or F8 stopped the run, because its charge
/// would pass the limit or a value is too deep.
pub fn verdict_is_told()
    ensures { VerdictIsTold }
{
    roots_have_values();
}
