//! Versions in texts.
ghost use Rattle.std.specs.Prelude.{◌≡◌, IfSome, option_map};
ghost use Rattle.versions.specs.Versions as specs;

use crate::endings::ending;
use crate::numerals::{last_at, minor_at, number_at, without_v};
use crate::version::Version;

/// The version that the text spells (`semver(text, normalize)`, and `isSemver` if there is one). Without `normalize` it is
/// one of SemVer 2.0.0. With it, a `v` and zeros may be in front, and numbers may be missing at the end.
#[tactic(auto, unfolding(crate::specs::Versions::version_of))]
pub fn version_of(text: &str, normalize: bool) -> Option<Version<'_>>
    ensures value { option_map specs.version_view result ≡ specs.version_of normalize text.now }
    ensures pre { IfSome result (λ v. specs.IsPre v.pre.now) }
{
    let text = without_v(normalize, text.as_bytes());
    let major = number_at(normalize, text)?;
    let minor = minor_at(normalize, major.1)?;
    let patch = last_at(normalize, minor.1)?;
    let pre = ending(patch.1)?;
    Some(Version {
        major: major.0,
        minor: minor.0,
        patch: patch.0,
        pre,
    })
}
