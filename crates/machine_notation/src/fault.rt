//! Why a text spells no cells.

use thiserror::Error;

/// Why a text spells no cells that a command or a segment can have. A graphic that is missed among the first 40 comes
/// before their number.
#[derive(Clone, Copy, Debug, Error)]
pub enum CellsFault {
    /// A byte is no graphic.
    #[error("a byte is no graphic")]
    Graphic,
    /// There is no cell, or there are more than 40.
    #[error("no cell, or more than 40")]
    Length,
}
