//! Texts in the graphics of one chain and of another.
ghost use Rattle.std.specs.Prelude.{◌≡◌, map};
ghost use Rattle.bcd_1401.specs.Graphics.{chain_of, ours_of, theirs_of};

use crate::graphics::Graphics;

/// The chain that was asked for, or else that of this machine.
fn chain_of(asked: Option<Graphics>) -> Graphics
    ensures { result ≡ chain_of asked }
{
    asked.unwrap_or(Graphics::Ours)
}

impl Graphics {
    /// Puts this machine's graphics for those of this chain.
    pub fn read_text(self, text: &mut [u8])
        ensures { text.new ≡ map (ours_of self) text.old }
    {
        for i in 0..text.len() {
            text[i] = self.ours(text[i]);
        }
    }

    /// Puts this chain's graphics for those of this machine.
    pub fn write_text(self, text: &mut [u8])
        ensures { text.new ≡ map (theirs_of self) text.old }
    {
        for i in 0..text.len() {
            text[i] = self.theirs(text[i]);
        }
    }
}

/// A text in the graphics of the chain that was asked for, in those of this machine.
pub fn in_ours(asked: Option<Graphics>, text: Vec<u8>) -> Vec<u8>
    ensures { result.items ≡ map (ours_of (chain_of asked)) text.items }
{
    let mut read = text;
    chain_of(asked).read_text(read.as_mut_slice());
    read
}

/// A text in the graphics of this machine, in those of the chain that was asked for.
pub fn in_theirs(asked: Option<Graphics>, text: Vec<u8>) -> Vec<u8>
    ensures { result.items ≡ map (theirs_of (chain_of asked)) text.items }
{
    let mut written = text;
    chain_of(asked).write_text(written.as_mut_slice());
    written
}
