//! Tests of two texts.

ghost use Rattle.std.specs.Prelude.{◌≡◌};
ghost use Rattle.cel_macros.specs.Functions.{test_named};

/// A test of two texts, written as a method (cel-spec, List of Standard Definitions).
#[derive(Clone, Copy, Debug, PartialEq, Eq)]
pub enum TextTest {
    /// Whether the text starts with the argument.
    StartsWith,
    /// Whether the text ends with the argument.
    EndsWith,
    /// Whether the text contains the argument.
    Contains,
}

impl TextTest {
    /// The test with this name.
    #[tactic(auto, unfolding(crate::specs::Functions::test_named))]
    pub(crate) fn of_name(name: &str) -> Option<TextTest>
        ensures { result ≡ test_named name.now }
    {
        match name {
            "startsWith" => Some(TextTest::StartsWith),
            "endsWith" => Some(TextTest::EndsWith),
            "contains" => Some(TextTest::Contains),
            _ => None,
        }
    }
}
