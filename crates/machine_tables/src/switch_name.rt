//! The sense switches by their letters.
ghost use Rattle.std.specs.Prelude.{◌≡◌, ◌<◌};
ghost use Rattle.machine_tables.specs.SwitchName.{switch_number};

/// A sense switch (A24-1403, "Sense Switches").
#[derive(Clone, Copy, Debug, PartialEq, Eq)]
pub enum SwitchName {
    /// Switch A, which the last card looks at.
    A,
    /// Switch B.
    B,
    /// Switch C.
    C,
    /// Switch D.
    D,
    /// Switch E.
    E,
    /// Switch F.
    F,
    /// Switch G.
    G,
}

impl SwitchName {
    /// Which of the machine's switches it is: 0 for A to 6 for G.
    pub fn number(self) -> u8
        ensures value { result ≡ switch_number self }
        ensures range { result < 7 }
    {
        match self {
            SwitchName::A => 0,
            SwitchName::B => 1,
            SwitchName::C => 2,
            SwitchName::D => 3,
            SwitchName::E => 4,
            SwitchName::F => 5,
            SwitchName::G => 6,
        }
    }
}
