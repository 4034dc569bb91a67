//! Places, ranges, values and conditions as they are typed.
ghost use Rattle.std.specs.Prelude.{◌≡◌};
ghost use Rattle.bytes_text.specs.Written.{Adds};
ghost use Rattle.operate_answers.specs.Typed.{adjustment_text, base_text, condition_text, place_text, quoted_text};
ghost use Rattle.operate_answers.specs.Typed.{range_text, relation_text, value_text};

use bytes_text::Text;
use operate_orders::{Adjustment, Area, Base, Condition, Place, Range, Register, Relation, Value};
use operate_program::index_name;

/// Adds where an address begins.
fn put_base(text: &mut Text, base: &Base)
    ensures { Adds text.old text.new (base_text base.now) }
{
    match base {
        Base::Number(number) => text.put_number(1, u64::from(*number)),
        Base::Label(label) => text.put(label.as_slice()),
        Base::Line(line) => {
            text.put_byte(b':');
            text.put_number(1, u64::from(*line));
        }
        Base::Index(register) => text.put(index_name(*register)),
        Base::Held(Register::I) => text.put(b"$I"),
        Base::Held(Register::A) => text.put(b"$A"),
        Base::Held(Register::B) => text.put(b"$B"),
    }
}

/// Adds an adjustment with its sign, if there is one.
fn put_adjustment(text: &mut Text, adjustment: Option<Adjustment>)
    ensures { Adds text.old text.new (adjustment_text adjustment) }
{
    match adjustment {
        None => {}
        Some(Adjustment::Plus(number)) => {
            text.put_byte(b'+');
            text.put_number(1, u64::from(number));
        }
        Some(Adjustment::Minus(number)) => {
            text.put_byte(b'-');
            text.put_number(1, u64::from(number));
        }
        Some(Adjustment::Indexed(register)) => {
            text.put_byte(b'+');
            text.put(index_name(register));
        }
    }
}

/// Adds an address as it is typed.
#[tactic(auto, unfolding(crate::specs::Typed::place_text))]
pub fn put_typed_place(text: &mut Text, place: &Place)
    ensures { Adds text.old text.new (place_text place.now) }
{
    put_base(text, &place.base);
    put_adjustment(text, place.adjustments[0]);
    put_adjustment(text, place.adjustments[1]);
    put_adjustment(text, place.adjustments[2]);
}

/// Adds a range as it is typed.
pub fn put_typed_range(text: &mut Text, range: &Range)
    ensures { Adds text.old text.new (range_text range.now) }
{
    match range {
        Range::Area(Area::Read) => text.put(b"read"),
        Range::Area(Area::Punch) => text.put(b"punch"),
        Range::Area(Area::Print) => text.put(b"print"),
        Range::Between { first, last } => {
            put_typed_place(text, first);
            text.put(b"..");
            put_typed_place(text, last);
        }
        Range::Counted { first, count } => {
            put_typed_place(text, first);
            text.put_byte(b'/');
            text.put_number(1, u64::from(*count));
        }
        Range::At(place) => put_typed_place(text, place),
    }
}

/// How a relation is typed.
fn relation_sign(relation: Relation) -> &'static [u8]
    ensures { result.now ≡ relation_text relation }
{
    match relation {
        Relation::Equal => b"=",
        Relation::Unequal => b"<>",
        Relation::Less => b"<",
        Relation::Greater => b">",
        Relation::AtMost => b"<=",
        Relation::AtLeast => b">=",
    }
}

/// Adds a text between at signs.
#[tactic(auto, unfolding(crate::specs::Typed::quoted_text))]
pub(crate) fn put_quoted(text: &mut Text, quoted: &[u8])
    ensures { Adds text.old text.new (quoted_text quoted.now) }
{
    text.put_byte(b'@');
    text.put(quoted);
    text.put_byte(b'@');
}

/// Adds a value as it is typed.
fn put_typed_value(text: &mut Text, value: &Value)
    ensures { Adds text.old text.new (value_text value.now) }
{
    match value {
        Value::Number { minus, digits } => {
            if *minus {
                text.put_byte(b'-');
                text.put(digits.as_slice());
            } else {
                text.put(digits.as_slice());
            }
        }
        Value::Text(quoted) => put_quoted(text, quoted.as_slice()),
    }
}

/// Adds a condition as it is typed.
#[tactic(auto, unfolding(crate::specs::Typed::condition_text))]
pub fn put_typed_condition(text: &mut Text, condition: &Condition)
    ensures { Adds text.old text.new (condition_text condition.now) }
{
    put_typed_place(text, &condition.field);
    text.put_byte(b' ');
    text.put(relation_sign(condition.relation));
    text.put_byte(b' ');
    put_typed_value(text, &condition.value);
}
