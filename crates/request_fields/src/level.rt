//! Levels of a review.
ghost use Rattle.std.specs.Prelude.{◌≡◌};
ghost use Rattle.request_fields.specs.Fields.{below, below_request};

/// What a value of a review is read as.
#[derive(Clone, Copy, Debug, Drop, PartialEq, Eq)]
pub(crate) enum Level {
    Review,
    Request,
    /// A kind or a resource.
    Kind,
    Object,
    Metadata,
    Labels,
    /// A text, of which no member is kept.
    Text,
}

impl Level {
    /// What the member with this key is read as; none if it is dropped.
    #[tactic(auto, unfolding(crate::specs::Fields::below))]
    pub(crate) fn below(self, key: &str) -> Option<Level>
        ensures { result ≡ below self key.now }
    {
        match self {
            Level::Review => match key {
                "apiVersion" | "kind" => Some(Level::Text),
                "request" => Some(Level::Request),
                _ => None,
            },
            Level::Request => below_request(key),
            Level::Kind => match key {
                "group" | "version" | "kind" | "resource" => Some(Level::Text),
                _ => None,
            },
            Level::Object => match key {
                "metadata" => Some(Level::Metadata),
                _ => None,
            },
            Level::Metadata => match key {
                "labels" => Some(Level::Labels),
                "name" | "generateName" => Some(Level::Text),
                _ => None,
            },
            Level::Labels => Some(Level::Text),
            Level::Text => None,
        }
    }
}

/// What a member of a request is read as.
#[tactic(auto, unfolding(crate::specs::Fields::below_request))]
fn below_request(key: &str) -> Option<Level>
    ensures { result ≡ below_request key.now }
{
    match key {
        "kind" | "resource" | "requestKind" | "requestResource" => Some(Level::Kind),
        "object" | "oldObject" => Some(Level::Object),
        "uid" | "subResource" | "requestSubResource" | "operation" | "name" | "namespace" => {
            Some(Level::Text)
        }
        _ => None,
    }
}
