//! Versions of images.

ghost use Rattle.std.specs.Prelude.{◌≡◌};
ghost use Rattle.loader.specs.Contents as contents;
ghost use Rattle.loader.specs.Format as format;

/// The version of an image. It does not change how the image runs.
#[derive(Clone, Copy, Debug, PartialEq, Eq)]
pub enum Version {
    First,
    Second,
}

impl Version {
    /// 1 or 2.
    pub fn number(self) -> u8
        ensures { result ≡ contents.version_number self }
    {
        match self {
            Version::First => 1,
            Version::Second => 2,
        }
    }

    /// The first bytes of each file of the version.
    #[tactic(auto, unfolding(crate::specs::Format::magic))]
    pub fn magic(self) -> &'static [u8; 8]
        ensures { result.now ≡ format.magic self }
    {
        match self {
            Version::First => b"CELBPF01",
            Version::Second => b"CELBPF02",
        }
    }
}
