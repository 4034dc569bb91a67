//! What may keep the lines of a page off.
ghost use Rattle.std.specs.Prelude.{List, ℕ, Option, option_map};
ghost use Rattle.serving_page.specs.ManyLines.{lines_of};

/// Says before each line of a page whether it is carried out.
pub trait Gate {
    // Of the first of these lines it says nothing, and it is carried out; or why it is held off.
    ghost says: { List (List ℕ) → Option (List ℕ) → Type 0 };

    /// Why the first of these lines is held off now, if it is: a text, which is empty if memory was refused for it.
    fn keeps_off(&self, lines: &[u8]) -> Option<Vec<u8>>
        ensures { says (lines_of lines.now) (option_map (λ text. text.items) result) };
}
