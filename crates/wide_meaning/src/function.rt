//! Functions and methods of the wide language.

ghost use Rattle.std.specs.Prelude.{◌≡◌};
ghost use Rattle.wide_meaning.specs.Functions as specs;
ghost use Rattle.wide_meaning.specs.Functions.{function_named, method_named, qualified_named};

/// A function of one operand.
#[derive(Clone, Copy, Debug, PartialEq, Eq)]
pub enum Function {
    /// The number of code points, items or entries.
    Size,
    /// An int, a bool or a text, converted to a text.
    String,
    /// The operand itself, of type `dyn`.
    Dyn,
    /// A bool, or a text that denotes one.
    Bool,
}

impl Function {
    /// The function of this name.
    #[tactic(auto, unfolding(crate::specs::Functions::function_named))]
    pub fn of_name(name: &str) -> Option<Function>
        ensures { result ≡ function_named name.now }
    {
        match name {
            "size" => Some(Function::Size),
            "string" => Some(Function::String),
            "dyn" => Some(Function::Dyn),
            "bool" => Some(Function::Bool),
            _ => None,
        }
    }
}

/// A method.
#[derive(Clone, Copy, Debug, PartialEq, Eq)]
pub enum Method {
    /// The number of code points, items or entries.
    Size,
    StartsWith,
    EndsWith,
    Contains,
    /// Whether an optional value has a value.
    HasValue,
    /// The value of an optional value.
    Value,
    /// The value of an optional value, or the argument.
    OrValue,
    /// An optional value with a value, or the argument.
    Or,
    /// The first item of a list, if it has one.
    First,
    /// The last item of a list, if it has one.
    Last,
    /// The least item of a list.
    Min,
    /// The greatest item of a list.
    Max,
    /// Whether the items of a list are in ascending order.
    IsSorted,
    /// The items of a list that are equal to none before them.
    Distinct,
    /// The items of a list, the last one first.
    Reverse,
    /// The items of a list from one place up to another.
    Slice,
    /// The first place of a value in a list, or -1.
    IndexOf,
    /// The last place of a value in a list, or -1.
    LastIndexOf,
}

impl Method {
    /// The method of a text with this name.
    #[tactic(auto, unfolding(crate::specs::Functions::text_method))]
    fn of_text(name: &str) -> Option<Method>
        ensures { result ≡ specs.text_method name.now }
    {
        match name {
            "size" => Some(Method::Size),
            "startsWith" => Some(Method::StartsWith),
            "endsWith" => Some(Method::EndsWith),
            "contains" => Some(Method::Contains),
            _ => None,
        }
    }

    /// The method of an optional value with this name.
    #[tactic(auto, unfolding(crate::specs::Functions::optional_method))]
    fn of_optional(name: &str) -> Option<Method>
        ensures { result ≡ specs.optional_method name.now }
    {
        match name {
            "hasValue" => Some(Method::HasValue),
            "value" => Some(Method::Value),
            "orValue" => Some(Method::OrValue),
            "or" => Some(Method::Or),
            _ => None,
        }
    }

    /// The method of one item of a list with this name.
    #[tactic(auto, unfolding(crate::specs::Functions::item_method))]
    fn of_item(name: &str) -> Option<Method>
        ensures { result ≡ specs.item_method name.now }
    {
        match name {
            "first" => Some(Method::First),
            "last" => Some(Method::Last),
            "min" => Some(Method::Min),
            "max" => Some(Method::Max),
            _ => None,
        }
    }

    /// The method of all items of a list with this name.
    #[tactic(auto, unfolding(crate::specs::Functions::items_method))]
    fn of_items(name: &str) -> Option<Method>
        ensures { result ≡ specs.items_method name.now }
    {
        if "isSorted" == name {
            return Some(Method::IsSorted);
        }
        if "distinct" == name {
            return Some(Method::Distinct);
        }
        if "reverse" == name {
            return Some(Method::Reverse);
        }
        if "slice" == name {
            return Some(Method::Slice);
        }
        if "indexOf" == name {
            return Some(Method::IndexOf);
        }
        if "lastIndexOf" == name {
            return Some(Method::LastIndexOf);
        }
        None
    }

    /// The method of a list with this name.
    #[tactic(auto, unfolding(crate::specs::Functions::list_method))]
    fn of_list(name: &str) -> Option<Method>
        ensures { result ≡ specs.list_method name.now }
    {
        if let Some(found) = Method::of_item(name) {
            return Some(found);
        }
        Method::of_items(name)
    }

    /// The method of this name.
    #[tactic(auto, unfolding(crate::specs::Functions::method_named))]
    pub fn of_name(name: &str) -> Option<Method>
        ensures { result ≡ method_named name.now }
    {
        if let Some(found) = Method::of_text(name) {
            return Some(found);
        }
        if let Some(found) = Method::of_optional(name) {
            return Some(found);
        }
        Method::of_list(name)
    }
}

/// A function with a namespace.
#[derive(Clone, Copy, Debug, PartialEq, Eq)]
pub enum Qualified {
    /// `optional.of`: an optional value with a value.
    OptionalOf,
    /// `optional.none`: an optional value without a value.
    OptionalNone,
    /// `optional.ofNonZeroValue`: without a value for null, false, 0 and what is empty.
    OptionalOfNonZeroValue,
    /// `sets.contains`: whether each item of the second list is in the first.
    SetsContains,
    /// `sets.intersects`: whether the lists have an item in common.
    SetsIntersects,
    /// `sets.equivalent`: whether each list contains the other.
    SetsEquivalent,
}

impl Qualified {
    /// The function of this name in the namespace `optional`.
    #[tactic(auto, unfolding(crate::specs::Functions::optional_named))]
    fn of_optional(name: &str) -> Option<Qualified>
        ensures { result ≡ specs.optional_named name.now }
    {
        if "of" == name {
            return Some(Qualified::OptionalOf);
        }
        if "none" == name {
            return Some(Qualified::OptionalNone);
        }
        if "ofNonZeroValue" == name {
            return Some(Qualified::OptionalOfNonZeroValue);
        }
        None
    }

    /// The function of this name in the namespace `sets`.
    #[tactic(auto, unfolding(crate::specs::Functions::sets_named))]
    fn of_sets(name: &str) -> Option<Qualified>
        ensures { result ≡ specs.sets_named name.now }
    {
        match name {
            "contains" => Some(Qualified::SetsContains),
            "intersects" => Some(Qualified::SetsIntersects),
            "equivalent" => Some(Qualified::SetsEquivalent),
            _ => None,
        }
    }

    /// The function of this name in this namespace.
    #[tactic(auto, unfolding(crate::specs::Functions::qualified_named))]
    pub fn of_names(namespace: &str, name: &str) -> Option<Qualified>
        ensures { result ≡ qualified_named namespace.now name.now }
    {
        match namespace {
            "optional" => Qualified::of_optional(name),
            "sets" => Qualified::of_sets(name),
            _ => None,
        }
    }
}
