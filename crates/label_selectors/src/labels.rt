//! The labels of objects.
ghost use Rattle.std.specs.Prelude.{◌≡◌, option_map};
ghost use Rattle.label_selectors.specs.Selectors.{Labels};

/// The labels of an object: a partial map from keys to values.
pub trait Labels {
    /// The value at each key that has one.
    ghost map: { Self → Labels };

    /// The value of a label, if the object has it.
    fn value(&self, key: &str) -> Option<&str>
        ensures { option_map (λ v. v.now) result ≡ map self.now key.now };
}
