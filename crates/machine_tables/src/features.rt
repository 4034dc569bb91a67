//! What a machine can be fitted with in addition to the operations that it always has.
ghost use Rattle.std.specs.Prelude.{◌≡◌, true, Some, IfSome};
ghost use Rattle.machine_tables.specs.Features.{are_some, feature_name, feature_named, has_feature, with_feature};

/// A feature that a machine can be fitted with (A24-1403, "Special Features", from memory; which operation belongs to
/// which is own where it says so).
#[derive(Clone, Copy, Debug, PartialEq, Eq)]
pub enum Feature {
    /// `@` multiplies and `%` divides.
    Multiply,
    /// `P` moves a record, from left to right.
    MoveRecord,
    /// `#` adds to an address.
    ModifyAddress,
    /// `W` branches if a character and the d-character have a bit in common.
    BitTest,
    /// More lengths of operations that every machine has (own): `B` and `V` of one character, `H` of seven and of one,
    /// `Q` of one, and halts of any length.
    Lengths,
    /// `8` and `9` start the feeds, which takes no time here (own).
    ReadPunchRelease,
    /// `M` and `L` of eight characters read and write tape, and `U` controls a tape unit.
    Tapes,
}

impl Feature {
    /// All of them.
    pub const ALL: [Feature; 7] = [
        Feature::Multiply,
        Feature::MoveRecord,
        Feature::ModifyAddress,
        Feature::BitTest,
        Feature::Lengths,
        Feature::ReadPunchRelease,
        Feature::Tapes,
    ];

    /// Its name, as a user writes it (own).
    #[tactic(auto, unfolding(crate::specs::Features::feature_named))]
    pub fn name(self) -> &'static str
        ensures value { result.now ≡ feature_name self }

        // No other feature has this name.
        ensures own { feature_named result.now ≡ Some self }
    {
        match self {
            Feature::Multiply => "multiply",
            Feature::MoveRecord => "move-record",
            Feature::ModifyAddress => "modify-address",
            Feature::BitTest => "bit-test",
            Feature::Lengths => "lengths",
            Feature::ReadPunchRelease => "read-punch-release",
            Feature::Tapes => "tapes",
        }
    }

    /// The feature of this name; `None` if none has it.
    ///
    /// ```text
    /// Feature::from_name("bit-test")          // Some(Feature::BitTest)
    /// Feature::from_name("disks")             // None
    /// ```
    #[tactic(auto, unfolding(crate::specs::Features::feature_named))]
    pub fn from_name(name: &str) -> Option<Feature>
        ensures value { result ≡ feature_named name.now }
        ensures name { IfSome result (λ feature. feature_name feature ≡ name.now) }
    {
        Feature::ALL
            .iter()
            .copied()
            .find(|feature| feature.name() == name)
    }
}

/// The features that a machine is fitted with.
///
/// ```text
/// Features::NONE.has(Feature::Lengths)                            // false
/// Features::NONE.with(Feature::Lengths).has(Feature::Lengths)     // true
/// ```
#[derive(Clone, Copy, Debug, PartialEq, Eq)]
pub struct Features {
    /// Whether `Feature::Multiply` is among them.
    pub multiply: bool,
    /// Whether `Feature::MoveRecord` is.
    pub move_record: bool,
    /// Whether `Feature::ModifyAddress` is.
    pub modify_address: bool,
    /// Whether `Feature::BitTest` is.
    pub bit_test: bool,
    /// Whether `Feature::Lengths` is.
    pub lengths: bool,
    /// Whether `Feature::ReadPunchRelease` is.
    pub read_punch_release: bool,
    /// Whether `Feature::Tapes` is.
    pub tapes: bool,
}

impl Features {
    /// No feature: what a machine has at power-on.
    pub const NONE: Features = Features {
        multiply: false,
        move_record: false,
        modify_address: false,
        bit_test: false,
        lengths: false,
        read_punch_release: false,
        tapes: false,
    };

    /// Each feature that there is.
    pub const ALL: Features = Features {
        multiply: true,
        move_record: true,
        modify_address: true,
        bit_test: true,
        lengths: true,
        read_punch_release: true,
        tapes: true,
    };

    /// Whether a feature is among them.
    pub fn has(self, feature: Feature) -> bool
        ensures { result ≡ has_feature self feature }
    {
        match feature {
            Feature::Multiply => self.multiply,
            Feature::MoveRecord => self.move_record,
            Feature::ModifyAddress => self.modify_address,
            Feature::BitTest => self.bit_test,
            Feature::Lengths => self.lengths,
            Feature::ReadPunchRelease => self.read_punch_release,
            Feature::Tapes => self.tapes,
        }
    }

    /// Whether there is a feature among them.
    pub fn are_some(self) -> bool
        ensures { result ≡ are_some self }
    {
        Feature::ALL.iter().any(|feature| self.has(*feature))
    }

    /// These, and a feature that may be among them already.
    pub fn with(self, feature: Feature) -> Features
        ensures value { result ≡ with_feature self feature }
        ensures has { has_feature result feature ≡ true }
    {
        let mut features = self;
        match feature {
            Feature::Multiply => features.multiply = true,
            Feature::MoveRecord => features.move_record = true,
            Feature::ModifyAddress => features.modify_address = true,
            Feature::BitTest => features.bit_test = true,
            Feature::Lengths => features.lengths = true,
            Feature::ReadPunchRelease => features.read_punch_release = true,
            Feature::Tapes => features.tapes = true,
        }
        features
    }
}
