//! Why a request is denied, in the words of the API.

ghost use Rattle.std.specs.Prelude.{◌≡◌};
ghost use Rattle.verdicts.specs.Policy.{reason_code, reason_name};

/// Why a request is denied. (Kubernetes, `reason` of a validation)
#[derive(Clone, Copy, Debug, PartialEq, Eq)]
pub enum Reason {
    Unauthorized,
    Forbidden,
    /// The default.
    Invalid,
    RequestEntityTooLarge,
}

impl Reason {
    /// Its name in documents.
    pub fn name(self) -> &'static str
        ensures { result.now ≡ reason_name self }
    {
        match self {
            Reason::Unauthorized => "Unauthorized",
            Reason::Forbidden => "Forbidden",
            Reason::Invalid => "Invalid",
            Reason::RequestEntityTooLarge => "RequestEntityTooLarge",
        }
    }

    /// Its HTTP status. (RFC 9110, section 15.5)
    pub fn code(self) -> u64
        ensures { result ≡ reason_code self }
    {
        match self {
            Reason::Unauthorized => 401,
            Reason::Forbidden => 403,
            Reason::Invalid => 422,
            Reason::RequestEntityTooLarge => 413,
        }
    }
}
