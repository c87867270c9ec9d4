//! Laws of histories.

ghost use Rattle.std.specs.Prelude.{◌≡◌};
ghost use Rattle.sporc_head.specs.declared.limits.TheConstants.{MAX_ENTRIES, DEVICE_NUMBERS};

/// The limits in numbers.
pub fn limits()
    ensures entries { MAX_ENTRIES ≡ 16384 }
    ensures devices { DEVICE_NUMBERS ≡ 256 }
{}
