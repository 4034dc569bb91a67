//! Three print chains, and the bytes that one of them has for the characters of another.
ghost use Rattle.std.specs.Prelude.{◌≡◌, ◌==◌, length, position};
ghost use Rattle.bcd_1401.specs.Graphics.{IsOneToOne, bytes_here, bytes_there, exchanged, ours_of, theirs_of};

/// The chain that a text's graphics are of.
#[derive(Clone, Copy, Debug, PartialEq, Eq)]
pub enum Graphics {
    /// That of this machine.
    Ours,
    /// SIMH's for business, as its i1401 has it.
    Simh,
    /// SIMH's for formulas.
    Fortran,
}

/// The place of a byte in a text.
fn place_in(text: &[u8], byte: u8) -> Option<usize>
    ensures { result ≡ position (λ each. each == byte) text.now }
{
    text.iter().position(|each| *each == byte)
}

/// A byte, with those of the first text exchanged for those of the second.
fn exchanged(of: &[u8], into: &[u8], byte: u8) -> u8
    requires { length of.now ≡ length into.now }
    ensures { result ≡ exchanged of.now into.now byte }
{
    match place_in(of, byte) {
        Some(i) => into[i],
        None => byte,
    }
}

impl Graphics {
    /// The bytes that mean something else here.
    fn bytes_there(self) -> &'static [u8]
        ensures { result.now ≡ bytes_there self }
    {
        match self {
            Graphics::Ours => &[],
            Graphics::Simh => b"{|~\"}('=+".as_slice(),
            Graphics::Fortran => b"='(+{|~\"}#@%&".as_slice(),
        }
    }

    /// What each of them is here.
    fn bytes_here(self) -> &'static [u8]
        ensures { result.now ≡ bytes_here self }
    {
        match self {
            Graphics::Ours => &[],
            Graphics::Simh => b"('=+\"{|~}".as_slice(),
            Graphics::Fortran => b"#@%&('=+\"~|{}".as_slice(),
        }
    }

    /// Translates a byte of this chain to our graphic of that character. A byte that is no graphic of this chain is
    /// none of ours.
    #[tactic(auto, using(crate::proofs::GraphicsLemmas::theirs_again, crate::proofs::GraphicsLemmas::one_to_one))]
    pub fn ours(self, byte: u8) -> u8
        ensures value { result ≡ ours_of self byte }
        ensures back { theirs_of self result ≡ byte }

        // No two of the 64 characters have one graphic.
        ensures own { IsOneToOne self }
    {
        exchanged(self.bytes_there(), self.bytes_here(), byte)
    }

    /// The byte that this chain has for the character of a byte of this machine's.
    #[tactic(auto, using(crate::proofs::GraphicsLemmas::ours_again, crate::proofs::GraphicsLemmas::one_to_one))]
    pub fn theirs(self, byte: u8) -> u8
        ensures value { result ≡ theirs_of self byte }
        ensures back { ours_of self result ≡ byte }
        ensures own { IsOneToOne self }
    {
        exchanged(self.bytes_here(), self.bytes_there(), byte)
    }
}
