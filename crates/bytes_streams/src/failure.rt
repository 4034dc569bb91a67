//! A read or a write that failed.

use thiserror::Error;

/// A read or a write failed, and nothing was read or written by it.
#[derive(Clone, Copy, Debug, Error)]
#[error("a read or a write failed")]
pub struct Failed;
