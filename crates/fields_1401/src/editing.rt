//! A field edited by the control word in the B field.
ghost use Rattle.std.specs.Prelude.{◌≡◌, ℕ, ◌+◌, ◌<◌, ◌≤◌, length, slice_index, IfSome, IfOk, OnOk};
ghost use Rattle.core_1401.specs.Address.{addresses};
ghost use Rattle.core_1401.specs.Field.{field_len_of};
ghost use Rattle.core_1401.specs.Storage.{Storage};
ghost use Rattle.bcd_1401.specs.Character.{with_zone_of};
ghost use Rattle.fields_1401.specs.Across.{chars_across, units_unzoned, unzoned_down, with_across, char_to};
ghost use Rattle.fields_1401.specs.Across.{IsSameOutside, IsSameBeside, IsUnmarked};
ghost use Rattle.fields_1401.specs.Edit.{replaceable_in, before_significant, is_left_over, is_comma_blanked};
ghost use Rattle.fields_1401.specs.Edit.{is_sign_char, is_sign_blanked, is_blanked, kept_char, unsuppressed};
ghost use Rattle.fields_1401.specs.Edit.{edited, sign_at, taken_at, edit_at, suppressed_to, without_zero, IsPlain};
ghost use Rattle.fields_1401.specs.Edit.{unsuppressed_place, ShowsWithBlanks};
ghost use Rattle.fields_1401.specs.Outcome.{CarriesOut};
ghost use Rattle.fields_1401.specs.Places.{with_chars};
ghost use Rattle.fields_1401.specs.Suppress.{comma_char};

use crate::control_word::{ControlWord, is_replaceable, limit};
use crate::done::{Done, FieldStop};
use crate::registers::{below_field, registers};
use crate::sign::Sign;
use crate::sixteen_columns::LANES;
use crate::sixteen_places::put_at_once;
use crate::suppression::{COMMA, ZERO};
use bcd_1401::Char;
use core_1401::Core;

/// The code of an ampersand.
pub(crate) const AMPERSAND: u8 = 48;

/// The code of a minus sign.
pub(crate) const MINUS: u8 = 32;

/// The code of the letter C.
pub(crate) const LETTER_C: u8 = 51;

/// The code of the letter R.
pub(crate) const LETTER_R: u8 = 41;

/// What the rules of a control word go by.
#[derive(Clone, Copy)]
pub(crate) struct Rules {
    /// How many characters of the A field are taken.
    pub(crate) taken: usize,
    /// How many places of the control word are replaceable.
    pub(crate) replaceable: usize,
    /// The sign of the A field.
    pub(crate) sign: Sign,
}

/// Edits the A field by the control word in the B field (A24-1403, "Move Characters and Edit"). From the right, the
/// blanks and zeros of the control word are replaced by the characters of A, the units without their zone; those for
/// which none is left become blank, with the commas among them. Zeros and commas left of the first character of A
/// that is neither zero nor blank become blank, up to the last zero of the control word. Ampersands become blank, and
/// right of all blanks and zeros of the control word commas, too, and, unless A is minus, `C`, `R` and `-`. All word
/// marks of the B field are cleared.
///
/// # Errors
///
/// `Address` if there is no B field, if a isn't in core, or if the A field comes to address 0 before its word
/// mark with a place left to replace; else `Overlap` if a place of A that is read is one of the B field.
#[tactic(auto, unfolding(crate::specs::Edit::edit_at, crate::specs::Edit::with_edited))]
pub fn edit(core: &mut Core, a: u16, b: u16) -> Result<Done, FieldStop>
    requires a { a < addresses }
    requires b { b < addresses }
    ensures outcome { CarriesOut (edit_at core.old a b) core.old core.new result }
    ensures marks { OnOk result (IfSome (field_len_of core.old b) (λ n. IsUnmarked core.new b n)) }
    ensures outside { IfSome (field_len_of core.old b) (λ n. IsSameOutside core.old core.new b n) }
    ensures beside { IfOk result (λ done. IsSameBeside core.old core.new b done.b) }

    // A control word of blanks and zeros shows what it takes of A with blanks in front.
    ensures plain { OnOk result (IfSome (taken_at core.old a b) (λ taken. IsPlain (chars_across core.old b taken.1)
        → ShowsWithBlanks (chars_across core.new b taken.1) (units_unzoned (chars_across core.old a taken.0)))) }
{
    let word = ControlWord::at(core, a, b)?;
    let rules = Rules {
        taken: usize::from(word.taken),
        replaceable: usize::from(word.replaceable),
        sign: Sign::of_units(core.get(a).char),
    };
    put_edited(core, word, rules);
    Ok(registers(below_field(a, word.taken), below_field(b, word.len)))
}

/// Puts what each place shows, without word marks.
fn put_edited(core: &mut Core, word: ControlWord, rules: Rules)
    requires a { word.a < length core.old }
    requires b { word.b < length core.old }
    requires taken { rules.taken ≡ word.taken }
    requires replaceable { rules.replaceable ≡ replaceable_in (chars_across core.old word.b word.len) }
    requires sign { rules.sign ≡ sign_at core.old word.a }
    ensures put { let control = chars_across core.old word.b word.len in
        let digits = units_unzoned (chars_across core.old word.a word.taken) in
        core.new ≡ with_across core.old word.b (edited control digits (sign_at core.old word.a)) }
    ensures size { length core.new ≡ length core.old }
{
    let limit = usize::from(limit(core, word.b, word.len));
    let significant = put_unsuppressed(core, word, rules);
    suppress_places(core, word, significant.min(limit));
    core.clear_marks(word.b, word.len);
}

/// Puts what each place shows before zeros and commas are suppressed, and counts the places left of the first
/// significant one. Word marks stay.
#[inline(always)]
fn put_unsuppressed(core: &mut Core, word: ControlWord, rules: Rules) -> usize
    requires a { word.a < length core.old }
    requires b { word.b < length core.old }
    requires taken { rules.taken ≡ word.taken }
    requires replaceable { rules.replaceable ≡ replaceable_in (chars_across core.old word.b word.len) }
    requires sign { rules.sign ≡ sign_at core.old word.a }
    ensures put { let control = chars_across core.old word.b word.len in
        let digits = units_unzoned (chars_across core.old word.a word.taken) in
        let shown = unsuppressed control digits (sign_at core.old word.a) in
        core.new ≡ with_chars core.old word.b word.len (char_to shown) }
    ensures significant { let control = chars_across core.old word.b word.len in
        let digits = units_unzoned (chars_across core.old word.a word.taken) in
        result ≡ before_significant control digits }
    ensures most { result ≤ word.len }
    ensures size { length core.new ≡ length core.old }
{
    if word.len <= LANES as u16 && word.a >= LANES as u16 - 1 && word.b >= LANES as u16 - 1 {
        put_at_once(core, word, rules)
    } else {
        put_by_places(core, word, rules)
    }
}

/// The same, place by place from the right.
#[inline(never)]
fn put_by_places(core: &mut Core, word: ControlWord, rules: Rules) -> usize
    requires a { word.a < length core.old }
    requires b { word.b < length core.old }
    requires taken { rules.taken ≡ word.taken }
    requires replaceable { rules.replaceable ≡ replaceable_in (chars_across core.old word.b word.len) }
    requires sign { rules.sign ≡ sign_at core.old word.a }
    ensures put { let control = chars_across core.old word.b word.len in
        let digits = units_unzoned (chars_across core.old word.a word.taken) in
        let shown = unsuppressed control digits (sign_at core.old word.a) in
        core.new ≡ with_chars core.old word.b word.len (char_to shown) }
    ensures significant { let control = chars_across core.old word.b word.len in
        let digits = units_unzoned (chars_across core.old word.a word.taken) in
        result ≡ before_significant control digits }
    ensures most { result ≤ word.len }
    ensures size { length core.new ≡ length core.old }
{
    let (units, len) = (usize::from(word.b), usize::from(word.len));
    let units_of_a = core.get(word.a).char.with_zone(0);
    let chars = core.chars_mut();
    let mut beyond = 0;
    let mut significant = len;
    for i in 0..len {
        let own = chars[units - i];
        if !is_replaceable(own) {
            chars[units - i] = rules.kept_char(beyond, own);
        } else if beyond < rules.taken {
            let char = char_of_a(chars, usize::from(word.a), beyond, units_of_a);
            if !is_replaceable(char) {
                significant = len - 1 - i;
            }
            chars[units - i] = char;
            beyond += 1;
        } else {
            chars[units - i] = Char::BLANK;
            beyond += 1;
        }
    }
    significant
}

/// The character of A that is taken after this many to its right: the first is the units, which are given without
/// their zone, so that none is removed for each.
#[inline(always)]
fn char_of_a(chars: &[Char], a: usize, beyond: usize, units: Char) -> Char
    requires a { a < length chars.now }
    requires beyond { beyond ≤ a }
    requires units { units ≡ with_zone_of (slice_index chars.now a) 0 }
    ensures { result ≡ unzoned_down chars.now a beyond }
{
    let char = chars[a - beyond];
    if beyond == 0 { units } else { char }
}

/// Suppresses the zeros and commas of this many places of the control word, from the left.
#[inline(always)]
fn suppress_places(core: &mut Core, word: ControlWord, count: usize)
    requires b { word.b < length core.old }
    requires count { count ≤ word.len }
    ensures suppressed { (before : Storage) → (char_of : ℕ → ℕ) → core.old ≡ with_chars before word.b word.len char_of
        → core.new ≡ with_chars before word.b word.len (suppressed_to char_of word.len count) }
    ensures size { length core.new ≡ length core.old }
{
    let low = usize::from(word.b + 1 - word.len);
    let chars = core.chars_mut();
    for i in 0..count {
        chars[low + i] = without_zero(chars[low + i]);
    }
}

/// A character of a place that is suppressed.
#[inline(always)]
fn without_zero(char: Char) -> Char
    ensures { result ≡ without_zero char }
{
    if char.code() == ZERO || char.code() == COMMA {
        Char::BLANK
    } else {
        char
    }
}

impl Rules {
    /// A character of the control word that took none of A.
    fn kept_char(self, beyond: usize, own: Char) -> Char
        ensures { result ≡ kept_char self (unsuppressed_place own beyond) }
    {
        if self.is_blanked(beyond, own) {
            Char::BLANK
        } else {
            own
        }
    }

    /// Whether a character of the control word becomes blank though nothing is suppressed.
    fn is_blanked(self, beyond: usize, own: Char) -> bool
        ensures { result ≡ is_blanked self (unsuppressed_place own beyond) }
    {
        is_replaceable(own)
            || own.code() == AMPERSAND
            || (own.code() == COMMA && self.is_comma_blanked(beyond))
            || (is_sign_char(own) && self.is_sign_blanked(beyond))
    }

    /// Whether a comma becomes blank: with what is left over, and after all replaceable places.
    fn is_comma_blanked(self, beyond: usize) -> bool
        ensures { result ≡ is_comma_blanked self (unsuppressed_place comma_char beyond) }
    {
        self.is_left_over(beyond) || beyond == 0
    }

    /// Whether a part of a sign becomes blank: after all replaceable places, unless A is minus.
    fn is_sign_blanked(self, beyond: usize) -> bool
        ensures { result ≡ is_sign_blanked self.sign beyond }
    {
        match self.sign {
            Sign::Plus => beyond == 0,
            Sign::Minus => false,
        }
    }

    /// Whether the characters of A were too few for the replaceable places, and all places that took one stand right
    /// of a place with this many replaceable ones right of it.
    fn is_left_over(self, beyond: usize) -> bool
        ensures { result ≡ is_left_over self beyond }
    {
        self.taken < self.replaceable && self.taken <= beyond
    }
}

/// Whether a character of the control word is part of a sign.
fn is_sign_char(char: Char) -> bool
    ensures { result ≡ is_sign_char char }
{
    let code = char.code();
    code == LETTER_C || code == LETTER_R || code == MINUS
}
