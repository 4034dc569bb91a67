//! A tape unit with the reel on it.
ghost use Rattle.std.specs.Prelude.{◌≡◌, IfOk};
ghost use Rattle.machine_tapes.specs.Drive.{no_reel};

use crate::Reel;
use std::alloc::{AllocError, Global};

/// A tape unit, and the reel that was mounted on it (A24-1403, "Magnetic Tape", from memory).
#[derive(Drop)]
pub struct Drive {
    /// The reel. Without one, it is a reel that has no room.
    pub reel: Reel,
    /// Whether the reel has the ring that allows writing.
    pub has_ring: bool,
    /// Whether a reel was mounted, and not unloaded since.
    pub is_ready: bool,
    /// Whether a record that ends a file was read since a branch asked for it.
    pub latch: bool,
}

impl Drive {
    /// A unit without a reel.
    pub(crate) fn without_reel(alloc: Global) -> Result<Drive, AllocError>
        ensures { IfOk result (λ drive. drive ≡ no_reel) }
    {
        Ok(Drive {
            reel: Reel::new(alloc, 0)?,
            has_ring: false,
            is_ready: false,
            latch: false,
        })
    }
}
