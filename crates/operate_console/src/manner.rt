//! How a person is spoken to.

/// How a person is spoken to.
#[derive(Clone, Copy)]
pub struct Manner {
    /// Whether there is a prompt before each line is read: at a terminal.
    pub prompts: bool,
    /// Whether prompt and line are written before each answer: where input is no terminal.
    pub echo: bool,
    /// Whether faults are red, and the line of a stop is bold.
    pub colour: bool,
    /// How many steps a run has at most where nobody is at a terminal; none at a terminal.
    pub limit: Option<u32>,
}
