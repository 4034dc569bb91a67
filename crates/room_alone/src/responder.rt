//! What carries out the lines of a console.
ghost use Rattle.std.specs.Prelude.{◌≡◌, true, false, None, Option};
ghost use Rattle.room_alone.specs.declared.reply.Reply.{Reply};
ghost use Rattle.console_text.specs.ConsoleLine.{Said};

use crate::reply::Reply;
use console_text::{Line, LineFault};

/// Carries out the lines of a console: a room, or a seat of a shared one.
pub trait Responder {
    // From the first, this line may be replied to so, and leave the second.
    ghost responds: { Self → Said → Option Reply → Self → Type 0 };

    // It may be asked to carry out a line.
    ghost is_good: { Self → Type 0 };

    // It has carried out a line that it couldn't keep.
    ghost is_unkept: { Self → Type 0 };

    /// Is told that a line, counted from 1, is about to be carried out.
    fn before(&mut self, line: u64)
        ensures { self.new ≡ self.old };

    /// Carries a line out, and gives its reply; an empty line has none.
    fn respond(&mut self, said: Result<Line, LineFault>) -> Option<Reply>
        requires { is_good self.old }
        ensures line { responds self.old said result self.new }
        ensures none { result ≡ None → is_good self.new };

    /// Whether what the last line did is kept, so that its reply may go out.
    fn is_kept(&self) -> bool
        ensures good { result ≡ true → is_good self.now }
        ensures unkept { result ≡ false → is_unkept self.now };

    /// Is told that the reply to a line, counted from 1, is written.
    fn after(&mut self, line: u64)
        ensures { self.new ≡ self.old };
}
