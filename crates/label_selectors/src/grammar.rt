//! The grammar of label keys and values.
ghost use Rattle.std.specs.Prelude.{◌≡◌, ◌<◌, ◌==◌, length, position, IfSome};
ghost use Rattle.std.specs.List.{list_all, slice_split};
ghost use Rattle.label_selectors.specs.Storing as specs;
ghost use Rattle.label_selectors.specs.Storing.{has_ends, is_alphanumeric, is_dns_character, is_lower_alphanumeric, is_name_character};

/// Whether the text is a label key: a name, or a prefix (a DNS subdomain), `/` and a name.
pub fn is_label_key(key: &str) -> bool
    ensures { result ≡ specs.is_label_key key.now }
{
    is_key(key.as_bytes())
}

/// Whether the text is a label value: empty or a name.
#[tactic(auto, unfolding(crate::specs::Storing::is_label_value))]
pub fn is_label_value(value: &str) -> bool
    ensures { result ≡ specs.is_label_value value.now }
{
    value.is_empty() || is_name(value.as_bytes())
}

/// Whether the bytes are a key.
#[tactic(auto, unfolding(crate::specs::Storing::is_label_key))]
fn is_key(key: &[u8]) -> bool
    ensures { result ≡ specs.is_label_key key.now }
{
    match slash_in(key) {
        Some(at) => is_prefix(&key[..at]) && is_name(&key[at + 1..]),
        None => is_name(key),
    }
}

/// The place of the first slash.
fn slash_in(text: &[u8]) -> Option<usize>
    ensures place { result ≡ position (λ c. c == 47) text.now }
    ensures within { IfSome result (λ at. at < length text.now) }
{
    text.iter().position(|byte| *byte == b'/')
}

/// Whether the text is 1 to 63 characters `[A-Za-z0-9]([-A-Za-z0-9_.]*[A-Za-z0-9])?`.
#[tactic(auto, unfolding(crate::specs::Storing::is_name))]
fn is_name(text: &[u8]) -> bool
    ensures { result ≡ specs.is_name text.now }
{
    text.len() <= 63 && has_alphanumeric_ends(text) && has_name_characters(text)
}

fn has_alphanumeric_ends(text: &[u8]) -> bool
    ensures { result ≡ has_ends is_alphanumeric text.now }
{
    !text.is_empty() && is_alphanumeric(text[0]) && is_alphanumeric(text[text.len() - 1])
}

fn has_name_characters(text: &[u8]) -> bool
    ensures { result ≡ list_all is_name_character text.now }
{
    text.iter().all(|byte| is_name_character(*byte))
}

/// Whether the text is 1 to 253 characters, DNS labels joined by dots.
#[tactic(auto, unfolding(crate::specs::Storing::is_prefix))]
fn is_prefix(text: &[u8]) -> bool
    ensures { result ≡ specs.is_prefix text.now }
{
    text.len() <= 253 && are_dns_labels(text)
}

fn are_dns_labels(text: &[u8]) -> bool
    ensures { result ≡ list_all specs.is_dns_label (slice_split (λ c. c == 46) text.now) }
{
    text.split(|byte| *byte == b'.')
        .all(|label| is_dns_label(label))
}

/// Whether the text is `[a-z0-9]([-a-z0-9]*[a-z0-9])?`.
#[tactic(auto, unfolding(crate::specs::Storing::is_dns_label))]
fn is_dns_label(text: &[u8]) -> bool
    ensures { result ≡ specs.is_dns_label text.now }
{
    has_lower_alphanumeric_ends(text) && has_dns_characters(text)
}

fn has_lower_alphanumeric_ends(text: &[u8]) -> bool
    ensures { result ≡ has_ends is_lower_alphanumeric text.now }
{
    !text.is_empty()
        && is_lower_alphanumeric(text[0])
        && is_lower_alphanumeric(text[text.len() - 1])
}

fn has_dns_characters(text: &[u8]) -> bool
    ensures { result ≡ list_all is_dns_character text.now }
{
    text.iter().all(|byte| is_dns_character(*byte))
}

fn is_lower_alphanumeric(byte: u8) -> bool
    ensures { result ≡ is_lower_alphanumeric byte }
{
    (byte >= b'a' && byte <= b'z') || (byte >= b'0' && byte <= b'9')
}

fn is_alphanumeric(byte: u8) -> bool
    ensures { result ≡ is_alphanumeric byte }
{
    (byte >= b'A' && byte <= b'Z') || is_lower_alphanumeric(byte)
}

fn is_name_character(byte: u8) -> bool
    ensures { result ≡ is_name_character byte }
{
    is_alphanumeric(byte) || byte == b'-' || byte == b'_' || byte == b'.'
}

fn is_dns_character(byte: u8) -> bool
    ensures { result ≡ is_dns_character byte }
{
    is_lower_alphanumeric(byte) || byte == b'-'
}
