//! Names of labels.
ghost use Rattle.std.specs.Prelude.{◌≡◌, ◌↔◌, true};
ghost use Rattle.std.specs.List.{list_all};
ghost use Rattle.assembler.specs.Items.{IsLabel, begins_name, goes_on_name};

/// Whether the text is an identifier: a letter or an underscore, followed by letters, underscores and digits.
pub(crate) fn is_name(text: &str) -> bool
    ensures { (result ≡ true) ↔ IsLabel text.now }
{
    match text.as_bytes() {
        [] => false,
        [first, rest @ ..] => begins_name(*first) && all_go_on(rest),
    }
}

fn all_go_on(bytes: &[u8]) -> bool
    ensures { result ≡ list_all goes_on_name bytes.now }
{
    bytes.iter().all(|byte| goes_on_name(*byte))
}

fn begins_name(byte: u8) -> bool
    ensures { result ≡ begins_name byte }
{
    byte.is_ascii_lowercase() || byte.is_ascii_uppercase() || byte == b'_'
}

fn goes_on_name(byte: u8) -> bool
    ensures { result ≡ goes_on_name byte }
{
    begins_name(byte) || byte.is_ascii_digit()
}
