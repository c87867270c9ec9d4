//! Laws of the outside.

ghost use Rattle.std.specs.Prelude.{◌≡◌};
ghost use Rattle.sporc_outside.specs.declared.file_fault.TheConstants.{MAX_FILE};

/// The limit in numbers.
pub fn limits()
    ensures file { MAX_FILE ≡ 1073741824 }
{}
