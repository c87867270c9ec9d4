//! What is asked of disks and of files that are appended to.

use crate::logged::Call;
use sporc_outside::FileBytes;

/// What a call asked of a disk.
#[derive(Drop)]
pub enum DiskRequest {
    Len,
    Read { at: u64, len: usize },
    Write { at: u64, bytes: FileBytes },
    Sync,
}

/// What a call asked of a file that is appended to.
#[derive(Drop)]
pub enum AppendRequest {
    Read,
    Append { bytes: FileBytes },
    Cut { len: u64 },
    Sync,
}

/// A call of a disk.
pub type DiskCall = Call<DiskRequest>;

/// A call of a file that is appended to.
pub type AppendCall = Call<AppendRequest>;
