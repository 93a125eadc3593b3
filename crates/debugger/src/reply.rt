//! Replies.
use crate::answer_text::AnswerText;

/// The reply to a line.
#[derive(Drop)]
pub enum Reply {
    /// A constant text.
    Fixed(&'static [u8]),
    /// A text that allocates nothing.
    Text(AnswerText),
    /// Lines of code or of a verdict.
    Lines(String),
    /// The line of a value: the text before it, and its own text, which is never copied.
    Value(AnswerText, String),
}

/// The reply to a line, and whether the session has ended.
#[derive(Drop)]
pub struct Answer {
    pub reply: Reply,
    /// Whether the session has ended.
    pub ended: bool,
}
