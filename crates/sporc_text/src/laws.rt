//! Laws of texts in chunks.

ghost use Rattle.std.specs.Prelude.{◌≡◌};
ghost use Rattle.sporc_text.specs.declared.limits.TheConstants.{MAX_CHUNK, MAX_JOINED, MEAN_CHUNK};

/// The limits in numbers.
pub fn limits()
    ensures max_chunk { MAX_CHUNK ≡ 1024 }
    ensures max_joined { MAX_JOINED ≡ 512 }
    ensures mean_chunk { MEAN_CHUNK ≡ 256 }
{}
