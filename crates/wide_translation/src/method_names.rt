//! Names of methods.

ghost use Rattle.std.specs.Prelude.{◌≡◌};
ghost use Rattle.wide_meaning.specs.Functions as functions;

use wide_meaning::Method;

/// The name of a method.
pub(crate) fn method_name(method: Method) -> &'static str
    ensures { result.now ≡ functions.method_name method }
{
    match method {
        Method::Size => "size",
        Method::StartsWith => "startsWith",
        Method::EndsWith => "endsWith",
        Method::Contains => "contains",
        Method::HasValue => "hasValue",
        Method::Value => "value",
        Method::OrValue => "orValue",
        Method::Or => "or",
        Method::First => "first",
        Method::Last => "last",
        Method::Min => "min",
        Method::Max => "max",
        Method::IsSorted => "isSorted",
        Method::Distinct => "distinct",
        Method::Reverse => "reverse",
        Method::Slice => "slice",
        Method::IndexOf => "indexOf",
        Method::LastIndexOf => "lastIndexOf",
    }
}
