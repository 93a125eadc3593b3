//! The help and version texts.
ghost use Rattle.std.specs.Prelude.{◌≡◌, map, option_map, string_bytes};
ghost use Rattle.std.specs.List.{list_any};
ghost use Rattle.cli.specs.Ending.{given_of};
ghost use Rattle.gatekeeper_runner.specs.About.{help_text, is_help, text_after_name, text_asked, text_of_words, version_asked, version_text};

use host::OrderError;

/// The text for `--help`, if one of the words after the program's name is that, or for `--version`,
/// if the first of them is.
pub fn text_asked(words: &Result<Vec<String>, OrderError>) -> Option<&'static str>
    ensures { option_map (λ s. s.now) result ≡ text_asked (given_of words.now) }
{
    match words {
        Ok(words) => text_after_name(words.as_slice()),
        Err(_) => None,
    }
}

/// The text for all words.
fn text_after_name(words: &[String]) -> Option<&'static str>
    ensures { option_map (λ s. s.now) result ≡ text_after_name (map string_bytes words.now) }
{
    match words {
        [] => None,
        [_, words @ ..] => text_of_words(words),
    }
}

/// The text for the words after the program's name.
fn text_of_words(words: &[String]) -> Option<&'static str>
    ensures { option_map (λ s. s.now) result ≡ text_of_words (map string_bytes words.now) }
{
    if asks_help(words) {
        Some(help_text())
    } else {
        version_asked(words)
    }
}

/// Whether one of the words is `--help`.
fn asks_help(words: &[String]) -> bool
    ensures { result ≡ list_any is_help (map string_bytes words.now) }
{
    some_is_help(words)
}

fn some_is_help(words: &[String]) -> bool
    ensures { result ≡ list_any (λ w. is_help (string_bytes w)) words.now }
{
    words.iter().any(|word| word.as_str() == "--help")
}

/// The text for `--version`, if it is the first of these words.
fn version_asked(words: &[String]) -> Option<&'static str>
    ensures { option_map (λ s. s.now) result ≡ version_asked (map string_bytes words.now) }
{
    match words {
        [] => None,
        [word, ..] => {
            if word.as_str() == "--version" {
                Some(version_text())
            } else {
                None
            }
        }
    }
}

#[tactic(auto, unfolding(crate::specs::About::help_text))]
fn help_text() -> &'static str
    ensures { result.now ≡ help_text }
{
    "usage: gatekeeper --policy F [--policy F ..] [--namespace F] [--params F]
                  [--profile] [--steps N] [--reads N] [--max-line N]
                  [--verbose] [--status]
       gatekeeper --cluster F [--cluster F ..] [--partial]
                  [--profile | --leave-messages] [--steps N] [--reads N]
                  [--max-line N] [--verbose] [--status]
       gatekeeper --translate F [--leave-messages]

Compiles the policies, and answers each review on standard input, a JSON document
a line, with a line on standard output.

  --policy F     a ValidatingAdmissionPolicy; once or more
  --namespace F  the namespace of the requests
  --params F     the params of the policies
  --cluster F    a List of what a cluster holds, as kubectl get -o json prints it;
                 once or more
  --partial      a policy of the cluster that is refused does not end the start;
                 the requests that it matches are refused, if none denies them
  --translate F  prints the policy of the file in the language that is compiled
  --profile      policies are read in the language that is compiled, as celbpf reads
                 them, and not as clusters store them
  --leave-messages
                 a message expression that is refused is left out of its policy
  --steps N      the most steps of a policy's program; 10000000 if not given
  --reads N      the most bytes that its helper calls read; 16777216 if not given
  --max-line N   the most bytes of a line; 16777216 if not given
  --verbose      tells of each refused line on standard error, with its number
  --status       ends with status 1 if an answer is a denial or a refusal
  --help         prints this text
  --version      prints the version
"
}

#[tactic(auto, unfolding(crate::specs::About::version_text))]
fn version_text() -> &'static str
    ensures { result.now ≡ version_text }
{
    "gatekeeper 0.20261201\n"
}
