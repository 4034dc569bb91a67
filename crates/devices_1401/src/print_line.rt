//! A line on the paper.

use bcd_1401::Char;

/// A printed line, and its position on the paper.
#[derive(Clone, Copy, Debug, PartialEq, Eq)]
pub struct PrintLine {
    /// The form, 1 to 9,999, and 0 after that.
    pub form: u16,
    /// The line of the form, 1 to 66.
    pub line: u8,
    /// The characters of the 132 print positions.
    pub text: [Char; 132],
}
