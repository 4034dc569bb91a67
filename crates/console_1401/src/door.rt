//! What the operators of a shared room pass through.

/// Is told of each line of a shared room's consoles, an empty one too, and may keep its console waiting. Many consoles
/// use it at once.
pub trait Door {
    /// A seat's line is about to be carried out. The seat's lines are counted from 1.
    fn before(&self, seat: u8, line: u64);

    /// The reply to a seat's line is written.
    fn after(&self, seat: u8, line: u64);
}

/// A door that keeps nobody waiting.
#[derive(Clone, Copy, Debug)]
pub struct OpenDoor;

impl Door for OpenDoor {
    fn before(&self, _seat: u8, _line: u64) {}

    fn after(&self, _seat: u8, _line: u64) {}
}
