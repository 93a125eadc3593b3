//! The kind of a policy's params.
ghost use Rattle.std.specs.Prelude.{◌≡◌, option_map};
ghost use Rattle.serde_json.specs.View.{view};
ghost use Rattle.json_fields.specs.Fields.{has_only};
ghost use Rattle.cluster_state.specs.Policies.{param_kind_in, param_kind_keys, param_kind_of, param_kind_parts, param_kind_view};

use crate::binding::if_text;
use json_fields::{field, has_only_keys, text};
use serde_json::Value;

/// The kind of a policy's params (ParamKind).
#[derive(Clone, Copy, Debug, Drop)]
pub struct ParamKind<'a> {
    pub api_version: &'a str,
    pub kind: &'a str,
}

/// Reads an optional kind of params; `None` if the API server does not store it.
#[tactic(auto, unfolding(crate::specs::Policies::param_kind_of))]
pub(crate) fn param_kind<'a>(value: Option<&'a Value>) -> Option<Option<ParamKind<'a>>>
    ensures { option_map (option_map param_kind_view) result ≡ param_kind_of (option_map (λ v. view v.now) value.entry) }
{
    match value {
        Some(value) => match param_kind_in(value) {
            Some(kind) => Some(Some(kind)),
            None => None,
        },
        None => Some(None),
    }
}

#[tactic(auto, unfolding(crate::specs::Policies::param_kind_keys))]
fn param_kind_in<'a>(value: &'a Value) -> Option<ParamKind<'a>>
    ensures { option_map param_kind_view result ≡ param_kind_in (view value.now) }
{
    if has_only_keys(value, ["apiVersion", "kind"].as_slice()) {
        param_kind_parts(value)
    } else {
        None
    }
}

#[tactic(auto, unfolding(crate::specs::Policies::param_kind_parts))]
fn param_kind_parts<'a>(value: &'a Value) -> Option<ParamKind<'a>>
    ensures { option_map param_kind_view result ≡ param_kind_parts (view value.now) }
{
    let api_version = if_text(text(field(value, "apiVersion")))?;
    let kind = if_text(text(field(value, "kind")))?;
    Some(ParamKind { api_version, kind })
}
