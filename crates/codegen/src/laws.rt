//! Laws of emitters. Each is the contract of an empty function.

ghost use Rattle.codegen.specs.Laws.{TooLongStays};

/// An emitter that `finish` refuses with `TooManyNodes` is still refused after each call.
pub fn too_long_stays()
    ensures { TooLongStays }
{}
