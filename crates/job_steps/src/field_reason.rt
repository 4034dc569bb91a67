//! Why an operation on fields can't be carried out.
ghost use Rattle.std.specs.Prelude.{◌≡◌};
ghost use Rattle.job_steps.specs.FieldReason.{address_of, field_stop};

use crate::words::{Part, Words};
use fields_1401::FieldStop;

/// One of the two operands of an instruction.
#[derive(Clone, Copy)]
pub enum Operand {
    /// The A operand.
    A,
    /// The B operand.
    B,
}

/// Places from one down to another.
#[derive(Clone, Copy)]
pub struct Span {
    /// The units place.
    pub from: u16,
    /// The high place.
    pub to: u16,
}

/// Why an operation on fields can't be carried out.
#[derive(Clone, Copy)]
pub enum FieldReason {
    /// An operand's address isn't in core.
    NotInCore { which: Operand, at: u16 },
    /// A field with its units at this place has no word mark down to place 0.
    NoFieldMark { which: Operand, at: u16 },
    /// Of two fields with their units at these places, one comes to place 0 before either has a word mark.
    NoPairMark { a: u16, b: u16 },
    /// The B field goes down from this place, and core has fewer places below it than the A field.
    TooFewPlaces { at: u16, needed: u16 },
    /// An operand's place is too low for the three characters of an address that end there.
    NoAddressPlaces { which: Operand, at: u16 },
    /// Loading the field to this place and those below it writes over the field's own word mark, before it is read.
    MarkOverwritten { field: Span, at: u16 },
    /// The A field, as far as it is used, and the B field share a place.
    Overlap { field: Span, other: Span },
    /// The product would end at this place, and core has none for a multiplier one place more left of it than this
    /// length of the A field.
    NoMultiplier { at: u16, len: u16 },
    /// The multiplier, with its units at this place, has no word mark down to place 0.
    NoMultiplierMark { at: u16 },
    /// The A field and the places of its product share a place.
    ProductOverlap { field: Span, product: Span },
    /// The dividend goes up from this place, and no place up to the end of core has a zone.
    NoDividendEnd { at: u16 },
    /// The dividend's units are at this place, and core has fewer places from there down than rest and quotient need.
    NoQuotientPlaces { at: u16, needed: u16 },
    /// The A field and the places of rest and quotient share a place.
    QuotientOverlap { field: Span, places: Span },
    /// Moving from the first address up to the second and up comes to the end of core before a last character: a record
    /// mark, or a group mark with a word mark.
    NoRecordEnd { a: u16, b: u16 },
}

impl Operand {
    /// The address of this one of two operands.
    pub fn of(self, a: u16, b: u16) -> u16
        ensures { result ≡ address_of self a b }
    {
        match self {
            Operand::A => a,
            Operand::B => b,
        }
    }
}

impl FieldReason {
    /// The stop that it is reported as.
    pub fn stop(self) -> FieldStop
        ensures { result ≡ field_stop self }
    {
        match self {
            FieldReason::NotInCore { .. } => FieldStop::Address,
            FieldReason::NoFieldMark { .. } => FieldStop::Address,
            FieldReason::NoPairMark { .. } => FieldStop::Address,
            FieldReason::TooFewPlaces { .. } => FieldStop::Address,
            FieldReason::NoAddressPlaces { .. } => FieldStop::Address,
            FieldReason::MarkOverwritten { .. } => FieldStop::Address,
            FieldReason::Overlap { .. } => FieldStop::Overlap,
            FieldReason::NoMultiplier { .. } => FieldStop::Address,
            FieldReason::NoMultiplierMark { .. } => FieldStop::Address,
            FieldReason::ProductOverlap { .. } => FieldStop::Overlap,
            FieldReason::NoDividendEnd { .. } => FieldStop::Address,
            FieldReason::NoQuotientPlaces { .. } => FieldStop::Address,
            FieldReason::QuotientOverlap { .. } => FieldStop::Overlap,
            FieldReason::NoRecordEnd { .. } => FieldStop::Address,
        }
    }
}

/// The words for two fields, one of which comes to place 0 before either has a word mark.
fn pair_words(a: u16, b: u16) -> Words {
    let pairs = a.min(b);
    let first = Part::Places(Span {
        from: a,
        to: a - pairs,
    });
    let second = Part::Places(Span {
        from: b,
        to: b - pairs,
    });
    if a == b {
        ("no word mark ", first, "", Part::Nothing, "")
    } else {
        (
            "no word mark ",
            first,
            " in the A field, nor ",
            second,
            " in the B field",
        )
    }
}

impl FieldReason {
    /// Its words.
    pub(crate) fn words(self) -> Words {
        match self {
            FieldReason::NotInCore {
                which: Operand::A,
                at,
            } => {
                (
                    "the A address ",
                    Part::Place(at),
                    " isn't in core",
                    Part::Nothing,
                    "",
                )
            }
            FieldReason::NotInCore {
                which: Operand::B,
                at,
            } => {
                (
                    "the B address ",
                    Part::Place(at),
                    " isn't in core",
                    Part::Nothing,
                    "",
                )
            }
            FieldReason::NoFieldMark {
                which: Operand::A,
                at,
            } => {
                let places = Part::Places(Span { from: at, to: 0 });
                (
                    "no word mark ",
                    places,
                    " in the A field",
                    Part::Nothing,
                    "",
                )
            }
            FieldReason::NoFieldMark {
                which: Operand::B,
                at,
            } => {
                let places = Part::Places(Span { from: at, to: 0 });
                (
                    "no word mark ",
                    places,
                    " in the B field",
                    Part::Nothing,
                    "",
                )
            }
            FieldReason::NoPairMark { a, b } => pair_words(a, b),
            FieldReason::TooFewPlaces { at, needed } => {
                let needed = Part::Number(usize::from(needed));
                (
                    "from ",
                    Part::Place(at),
                    " down core has no ",
                    needed,
                    " places, as many as the A field",
                )
            }
            FieldReason::NoAddressPlaces { at, .. } => {
                (
                    "from ",
                    Part::Place(at),
                    " down core has no 3 places for an address",
                    Part::Nothing,
                    "",
                )
            }
            FieldReason::MarkOverwritten { field, at } => (
                "loading to ",
                Part::Place(at),
                " writes over the A field's word mark at ",
                Part::Place(field.to),
                " before it is read",
            ),
            FieldReason::Overlap { field, other } => {
                let places = Part::Places(other);
                (
                    "the A field ",
                    Part::Places(field),
                    " and the B field ",
                    places,
                    " overlap",
                )
            }
            FieldReason::NoMultiplier { at, len } => {
                let left = Part::Number(usize::from(len) + 1);
                (
                    "core has no place for a multiplier ",
                    left,
                    " places left of ",
                    Part::Place(at),
                    "",
                )
            }
            FieldReason::NoMultiplierMark { at } => {
                let places = Part::Places(Span { from: at, to: 0 });
                (
                    "no word mark ",
                    places,
                    " in the multiplier",
                    Part::Nothing,
                    "",
                )
            }
            FieldReason::ProductOverlap { field, product } => {
                let places = Part::Places(product);
                (
                    "the A field ",
                    Part::Places(field),
                    " and the product ",
                    places,
                    " overlap",
                )
            }
            FieldReason::NoDividendEnd { at } => (
                "no place from ",
                Part::Place(at),
                " up to the end of core has a zone that ends the dividend",
                Part::Nothing,
                "",
            ),
            FieldReason::NoQuotientPlaces { at, needed } => {
                let needed = Part::Number(usize::from(needed));
                (
                    "from ",
                    Part::Place(at),
                    " down core has no ",
                    needed,
                    " places for rest and quotient",
                )
            }
            FieldReason::QuotientOverlap { field, places } => {
                let places = Part::Places(places);
                (
                    "the A field ",
                    Part::Places(field),
                    " and rest and quotient ",
                    places,
                    " overlap",
                )
            }
            FieldReason::NoRecordEnd { a, b } => (
                "moving from ",
                Part::Place(a),
                " to ",
                Part::Place(b),
                " comes to the end of core before a record mark or a group mark with a word mark",
            ),
        }
    }
}
