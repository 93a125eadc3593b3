//! Whether texts have the formats of Kubernetes' names.
ghost use Rattle.std.specs.Prelude.{◌≡◌, ◌==◌, ◌||◌, length};
ghost use Rattle.std.specs.List.{list_all, slice_split};
ghost use Rattle.std.specs.Str.{chars};
ghost use Rattle.text_functions.specs.Formats as specs;
ghost use Rattle.text_functions.specs.Formats.{has_ends};

/// Whether the text is `[a-z0-9]([-a-z0-9]*[a-z0-9])?` of at most 63 characters (`format.dns1123Label`).
pub fn is_dns1123_label(text: &str) -> bool
    ensures { result ≡ specs.is_dns1123_label (chars text.now) }
{
    is_short_label(text.as_bytes())
}

/// Whether the text is `[a-z0-9]([-a-z0-9]*[a-z0-9])?`, any number of times joined by dots, of at most 253 characters
/// (`format.dns1123Subdomain`).
pub fn is_dns1123_subdomain(text: &str) -> bool
    ensures { result ≡ specs.is_dns1123_subdomain (chars text.now) }
{
    is_subdomain(text.as_bytes())
}

/// Whether the text is `[a-z]([-a-z0-9]*[a-z0-9])?` of at most 63 characters (`format.dns1035Label`).
pub fn is_dns1035_label(text: &str) -> bool
    ensures { result ≡ specs.is_dns1035_label (chars text.now) }
{
    is_letter_label(text.as_bytes())
}

/// Whether the text is empty or `[A-Za-z0-9]([-A-Za-z0-9_.]*[A-Za-z0-9])?`, of at most 63 characters
/// (`format.labelValue`).
pub fn is_label_value(text: &str) -> bool
    ensures { result ≡ specs.is_label_value (chars text.now) }
{
    is_value(text.as_bytes())
}

#[tactic(auto, unfolding(crate::specs::Formats::is_dns1123_label))]
fn is_short_label(text: &[u8]) -> bool
    ensures { result ≡ specs.is_dns1123_label text.now }
{
    text.len() <= 63 && is_label(text)
}

#[tactic(auto, unfolding(crate::specs::Formats::is_dns1123_subdomain))]
fn is_subdomain(text: &[u8]) -> bool
    ensures { result ≡ specs.is_dns1123_subdomain text.now }
{
    text.len() <= 253 && are_labels(text)
}

#[tactic(auto, unfolding(crate::specs::Formats::is_dns1035_label))]
fn is_letter_label(text: &[u8]) -> bool
    ensures { result ≡ specs.is_dns1035_label text.now }
{
    text.len() <= 63 && has_letter_end(text) && has_label_characters(text)
}

#[tactic(auto, unfolding(crate::specs::Formats::is_label_value))]
fn is_value(text: &[u8]) -> bool
    ensures { result ≡ specs.is_label_value text.now }
{
    text.len() <= 63 && is_empty_or_framed(text)
}

fn is_empty_or_framed(text: &[u8]) -> bool
    ensures { result ≡ (length text.now == 0 || specs.is_framed specs.is_alphanumeric specs.is_value_character specs.is_alphanumeric text.now) }
{
    text.is_empty() || (has_alphanumeric_ends(text) && has_value_characters(text))
}

fn are_labels(text: &[u8]) -> bool
    ensures { result ≡ list_all specs.is_label (slice_split (λ c. c == 46) text.now) }
{
    text.split(|byte| *byte == b'.')
        .all(|label| is_label(label))
}

/// Whether the text is `[a-z0-9]([-a-z0-9]*[a-z0-9])?`.
#[tactic(auto, unfolding(crate::specs::Formats::is_label))]
fn is_label(text: &[u8]) -> bool
    ensures { result ≡ specs.is_label text.now }
{
    has_label_ends(text) && has_label_characters(text)
}

fn has_label_ends(text: &[u8]) -> bool
    ensures { result ≡ has_ends specs.is_lower_alphanumeric specs.is_lower_alphanumeric text.now }
{
    !text.is_empty()
        && is_lower_alphanumeric(text[0])
        && is_lower_alphanumeric(text[text.len() - 1])
}

fn has_letter_end(text: &[u8]) -> bool
    ensures { result ≡ has_ends specs.is_lower_letter specs.is_lower_alphanumeric text.now }
{
    !text.is_empty() && is_lower_letter(text[0]) && is_lower_alphanumeric(text[text.len() - 1])
}

fn has_alphanumeric_ends(text: &[u8]) -> bool
    ensures { result ≡ has_ends specs.is_alphanumeric specs.is_alphanumeric text.now }
{
    !text.is_empty() && is_alphanumeric(text[0]) && is_alphanumeric(text[text.len() - 1])
}

fn has_label_characters(text: &[u8]) -> bool
    ensures { result ≡ list_all specs.is_label_character text.now }
{
    text.iter().all(|byte| is_label_character(*byte))
}

fn has_value_characters(text: &[u8]) -> bool
    ensures { result ≡ list_all specs.is_value_character text.now }
{
    text.iter().all(|byte| is_value_character(*byte))
}

fn is_lower_letter(byte: u8) -> bool
    ensures { result ≡ specs.is_lower_letter byte }
{
    byte >= b'a' && byte <= b'z'
}

fn is_lower_alphanumeric(byte: u8) -> bool
    ensures { result ≡ specs.is_lower_alphanumeric byte }
{
    is_lower_letter(byte) || (byte >= b'0' && byte <= b'9')
}

fn is_alphanumeric(byte: u8) -> bool
    ensures { result ≡ specs.is_alphanumeric byte }
{
    (byte >= b'A' && byte <= b'Z') || is_lower_alphanumeric(byte)
}

fn is_label_character(byte: u8) -> bool
    ensures { result ≡ specs.is_label_character byte }
{
    is_lower_alphanumeric(byte) || byte == b'-'
}

fn is_value_character(byte: u8) -> bool
    ensures { result ≡ specs.is_value_character byte }
{
    is_alphanumeric(byte) || byte == b'-' || byte == b'_' || byte == b'.'
}
