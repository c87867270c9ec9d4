//! Files with their names.

use std::marker::Model;

/// A file, as a folder tells it.
#[derive(Drop)]
pub struct NamedFile {
    pub name: FileBytes,
    pub bytes: FileBytes,
}

/// The bytes of a file, or its name.
#[derive(Drop)]
pub struct FileBytes {
    bytes: Vec<u8>,
}

impl Model for FileBytes {
    ghost use Rattle.std.specs.Prelude.{List, ℕ};

    ghost Value = { List ℕ };

    ghost view = { λ b. b.bytes.items };
}

impl FileBytes {
    ghost use Rattle.std.specs.Prelude.{◌≡◌};

    /// These bytes.
    pub fn new(bytes: Vec<u8>) -> FileBytes
        ensures value { result ≡ bytes.items }
    {
        FileBytes { bytes }
    }

    /// The bytes.
    pub fn as_slice(&self) -> &[u8]
        ensures value { result.now ≡ self.now }
    {
        self.bytes.as_slice()
    }
}
