//! Which of the standard streams are terminals.

use program_operate::Ends;
use program_run::ErrorOutput;
use std::env;
use std::env::VarError;
use std::rt::Env;

/// The variable that says that a terminal is to have no colours.
const NO_COLOURS: &str = "NO_COLOR";

/// Which of the standard streams are terminals.
#[derive(Clone, Copy)]
pub struct Terminals {
    /// Whether standard input is.
    pub input: bool,
    /// Whether standard output is.
    pub output: bool,
    /// Whether standard error is.
    pub error_output: bool,
}

impl Terminals {
    /// What standard error is for a run.
    pub fn error_output(self) -> ErrorOutput {
        if self.error_output {
            ErrorOutput::Terminal
        } else {
            ErrorOutput::Other
        }
    }

    /// What a person's console is given: colours at a terminal, unless a variable says that there are to be none.
    pub fn ends(self, rt: &(impl Env + AllocGlobal)) -> Ends {
        Ends {
            is_typed: self.input,
            has_colours: self.output && !is_set(rt),
        }
    }
}

/// Whether the variable is there, and has a text.
fn is_set(rt: &(impl Env + AllocGlobal)) -> bool {
    match env::var(rt, NO_COLOURS) {
        Ok(text) => !text.is_empty(),
        // It isn't there, or its text can't be read.
        Err(error) => error != VarError::NotPresent,
    }
}
