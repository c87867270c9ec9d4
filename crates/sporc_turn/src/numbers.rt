//! The numbers of a pass.

ghost use Rattle.std.specs.Prelude.{◌≡◌, ◌≢◌, ◌≤◌};

/// The number of a pass, how many passes were split from it, and how many of them were joined back.
#[derive(Clone, Copy)]
pub(crate) struct Numbers {
    pub number: u32,
    pub splits: u32,
    pub joined: u32,
    ghost in_bounds: { joined ≤ splits },
    ghost first_splits: { number ≢ 0 → splits ≡ 0 },
}
