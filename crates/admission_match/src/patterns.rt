//! Patterns of rules.
ghost use Rattle.std.specs.Prelude.{◌≡◌, ◌<◌, ◌==◌, bytes_eq, length, map, position, string_bytes, IfSome};
ghost use Rattle.std.specs.List.{list_any};
ghost use Rattle.admission_match.specs.Rules as specs;
ghost use Rattle.admission_match.specs.Rules.{covers, is_or_any};
ghost use Rattle.label_selectors.specs.Selectors.{is_one_of};

/// Whether the list contains `*` or the text.
pub(crate) fn has_or_any(patterns: &[String], text: &str) -> bool
    ensures { result ≡ specs.has_or_any (map string_bytes patterns.now) text.now }
{
    some_is_text_or_any(patterns, text)
}

fn some_is_text_or_any(patterns: &[String], text: &str) -> bool
    ensures { result ≡ list_any (λ p. is_or_any (string_bytes p) text.now) patterns.now }
{
    patterns
        .iter()
        .any(|pattern| is_text_or_any(pattern.as_str(), text))
}

/// Whether the list is empty or contains this name.
pub(crate) fn has_name(names: &[String], name: &str) -> bool
    ensures { result ≡ specs.has_name (map string_bytes names.now) name.now }
{
    names.is_empty() || is_one_of(name, names)
}

fn is_one_of(text: &str, texts: &[String]) -> bool
    ensures { result ≡ is_one_of text.now (map string_bytes texts.now) }
{
    some_is(text, texts)
}

fn some_is(text: &str, texts: &[String]) -> bool
    ensures { result ≡ list_any (λ t. bytes_eq text.now (string_bytes t)) texts.now }
{
    texts.iter().any(|own| text == own.as_str())
}

/// Whether a pattern covers the resource with the subresource.
pub(crate) fn covers_one(patterns: &[String], resource: &str, subresource: &str) -> bool
    ensures { result ≡ specs.covers_one (map string_bytes patterns.now) resource.now subresource.now }
{
    some_covers(patterns, resource, subresource)
}

fn some_covers(patterns: &[String], resource: &str, subresource: &str) -> bool
    ensures { result ≡ list_any (λ p. covers (string_bytes p) resource.now subresource.now) patterns.now }
{
    patterns
        .iter()
        .any(|pattern| covers(pattern.as_str(), resource, subresource))
}

/// Whether a pattern of `resources` covers a resource with a subresource, which is empty for the
/// resource itself. `pods/*` also covers pods, and `*` covers no subresource.
#[tactic(auto, unfolding(crate::specs::Rules::covers))]
fn covers(pattern: &str, resource: &str, subresource: &str) -> bool
    ensures { result ≡ covers pattern.now resource.now subresource.now }
{
    let pattern = pattern.as_bytes();
    match slash_in(pattern) {
        Some(at) => {
            is_or_any(&pattern[..at], resource.as_bytes())
                && is_or_any(&pattern[at + 1..], subresource.as_bytes())
        }
        None => is_or_any(pattern, resource.as_bytes()) && is_or_any(b"", subresource.as_bytes()),
    }
}

/// The place of the first slash.
fn slash_in(text: &[u8]) -> Option<usize>
    ensures place { result ≡ position (λ c. c == 47) text.now }
    ensures within { IfSome result (λ at. at < length text.now) }
{
    text.iter().position(|byte| *byte == b'/')
}

/// Whether the pattern is `*` or the text.
fn is_text_or_any(pattern: &str, text: &str) -> bool
    ensures { result ≡ is_or_any pattern.now text.now }
{
    pattern == "*" || pattern == text
}

/// Whether the bytes are `*` or those of the text.
fn is_or_any(pattern: &[u8], text: &[u8]) -> bool
    ensures { result ≡ is_or_any pattern.now text.now }
{
    pattern == "*".as_bytes() || pattern == text
}
