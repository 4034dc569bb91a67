//! Fields compared.
ghost use Rattle.std.specs.Prelude.{ℕ, ◌≡◌, ◌≢◌, ◌+◌, ◌-◌, ◌<◌, ◌≤◌, ◌||◌, true, IfOk, IfSome, Some, length};
ghost use Rattle.std.specs.Cmp.Lexicographic.{slice_cmp};
ghost use Rattle.std.specs.Ordering.{nat_cmp};
ghost use Rattle.core_1401.specs.Address.{addresses};
ghost use Rattle.core_1401.specs.Field.{field_len_of};
ghost use Rattle.core_1401.specs.Storage.{cell_at};
ghost use Rattle.fields_1401.specs.Compare.{comparison_at, ends_first, highest_difference, is_higher, order_at};
ghost use Rattle.fields_1401.specs.Compare.{orders_across, IsOneOfThree, Tells};

use crate::done::{Done, FieldStop};
use crate::lanes::{codes_across, differing_bits};
use crate::refusals::are_in_core;
use crate::registers::{below_field, registers};
use core_1401::Core;

/// How many pairs of a longer field are compared at once.
const BLOCK: u16 = 8;

/// How many pairs are compared at once, or one by one if sixteen places don't end at either address.
const FEW: u16 = 16;

/// Compares the fields at both addresses, up to and including the first word mark in either: they are unequal if two
/// characters differ, or if the A field ends before the B field (A24-1403, "Compare"). An unequal B field is high
/// if the A field ends before it, or if the highest place at which they differ has the higher character in B; else
/// it is low (A24-1403, "High-Low-Equal Compare Device").
///
/// # Errors
///
/// `Address` if one of the addresses isn't in core, or one field comes to address 0 before a word mark in
/// either.
#[tactic(auto, unfolding(crate::specs::Compare::comparison_at), using(crate::proofs::FieldLemmas::no_pair))]
pub fn compare(core: &Core, a: u16, b: u16) -> Result<Done, FieldStop>
    requires a { a < addresses }
    requires b { b < addresses }
    ensures value { result ≡ comparison_at core.now a b }
    ensures registers { IfOk result (λ done. (done.a < addresses) × (done.b < addresses)) }
    ensures one { IfOk result (λ done. IsOneOfThree done) }

    // Fields of one length compare as words of one length do in a dictionary, by the collating order.
    ensures dictionary { (n : ℕ) → field_len_of core.now a ≡ Some n → field_len_of core.now b ≡ Some n →
        IfOk result (λ done.
        Tells done (slice_cmp nat_cmp (orders_across core.now a n) (orders_across core.now b n))) }
{
    if !are_in_core(core, a, b) {
        return Err(FieldStop::Address);
    }
    compare_within(core, a, b)
}

/// As `compare`, for addresses known to be those of places.
///
/// # Errors
///
/// `Address` if one field comes to address 0 before a word mark in either.
pub fn compare_within(core: &Core, a: u16, b: u16) -> Result<Done, FieldStop>
    requires a { a < addresses }
    requires b { b < addresses }
    requires places { (a < length core.now) × (b < length core.now) }
    ensures value { result ≡ comparison_at core.now a b }
    ensures registers { IfOk result (λ done. (done.a < addresses) × (done.b < addresses)) }
    ensures one { IfOk result (λ done. IsOneOfThree done) }

    // Fields of one length compare as words of one length do in a dictionary, by the collating order.
    ensures dictionary { (n : ℕ) → field_len_of core.now a ≡ Some n → field_len_of core.now b ≡ Some n →
        IfOk result (λ done.
        Tells done (slice_cmp nat_cmp (orders_across core.now a n) (orders_across core.now b n))) }
{
    let Some(n) = core.pair_len(a, b) else {
        return Err(FieldStop::Address);
    };
    let ends_first = ends_first(core, a, b, n);
    let difference = highest_difference(core, a, b, n);
    let unequal = difference.is_some() | ends_first;
    let high = ends_first | is_higher(core, a, b, difference);
    Ok(Done {
        unequal,
        low: unequal & !high,
        high,
        ..registers(below_field(a, n), below_field(b, n))
    })
}

/// Whether the A field ends before the B field: of n pairs the last has a word mark in A, and none in B. It has one in
/// either, so B's is asked for alone.
#[inline(always)]
#[tactic(auto, using(crate::proofs::CompareLemmas::asked_alone))]
fn ends_first(core: &Core, a: u16, b: u16, n: u16) -> bool
    requires some { 0 < n }
    requires address { (a < addresses) × (b < addresses) }
    requires a { (n ≤ a + 1) × (a < length core.now) }
    requires b { (n ≤ b + 1) × (b < length core.now) }
    requires marked { ((cell_at core.now (a + 1 - n)).mark || (cell_at core.now (b + 1 - n)).mark) ≡ true }
    ensures { result ≡ ends_first core.now a b n }
{
    !core.get(b + 1 - n).mark
}

/// The highest of n pairs whose characters differ, counted from the units.
#[inline(always)]
fn highest_difference(core: &Core, a: u16, b: u16, n: u16) -> Option<u16>
    requires some { 0 < n }
    requires a { (n ≤ a + 1) × (a < length core.now) }
    requires b { (n ≤ b + 1) × (b < length core.now) }
    ensures value { result ≡ highest_difference core.now a b n }
    ensures pair { IfSome result (λ i. i < n) }
    ensures differ { IfSome result (λ i. (cell_at core.now (a - i)).char ≢ (cell_at core.now (b - i)).char) }
{
    if n <= FEW {
        return if a >= FEW - 1 && b >= FEW - 1 {
            highest_at_once(core, a, b, n)
        } else {
            highest_of_few(core, a, b, n)
        };
    }
    if !core.chars_differ(a, b, n) {
        return None;
    }
    highest_of_few(core, a, b, left_to_compare(core, a, b, n))
}

/// The same of at most sixteen pairs: all lanes are compared, and those of the pairs are the last.
#[inline(always)]
fn highest_at_once(core: &Core, a: u16, b: u16, n: u16) -> Option<u16>
    requires some { 0 < n }
    requires few { n ≤ 16 }
    requires least { (15 ≤ a) × (15 ≤ b) }
    requires a { (n ≤ a + 1) × (a < length core.now) }
    requires b { (n ≤ b + 1) × (b < length core.now) }
    ensures value { result ≡ highest_difference core.now a b n }
    ensures pair { IfSome result (λ i. i < n) }
    ensures differ { IfSome result (λ i. (cell_at core.now (a - i)).char ≢ (cell_at core.now (b - i)).char) }
{
    let chars = core.chars();
    let of_a = codes_across(chars, usize::from(a));
    let of_b = codes_across(chars, usize::from(b));
    let differing = differing_bits(of_a, of_b) >> u64::from(FEW - n);
    if differing == 0 {
        return None;
    }
    Some(n - 1 - differing.trailing_zeros() as u16)
}

/// The same, looked for from the highest pair down.
#[inline(always)]
fn highest_of_few(core: &Core, a: u16, b: u16, n: u16) -> Option<u16>
    requires a { (n ≤ a + 1) × (a < length core.now) }
    requires b { (n ≤ b + 1) × (b < length core.now) }
    ensures value { result ≡ highest_difference core.now a b n }
    ensures pair { IfSome result (λ i. i < n) }
    ensures differ { IfSome result (λ i. (cell_at core.now (a - i)).char ≢ (cell_at core.now (b - i)).char) }
{
    let chars = core.chars();
    let (a, b, n) = (usize::from(a), usize::from(b), usize::from(n));
    for beyond in 0..n {
        let i = n - 1 - beyond;
        let of_a = chars[a - i];
        let of_b = chars[b - i];
        if of_a != of_b {
            return Some(i as u16);
        }
    }
    None
}

/// How many of n pairs are left below the highest blocks of eight that agree.
#[inline(always)]
fn left_to_compare(core: &Core, a: u16, b: u16, n: u16) -> u16
    requires a { (n ≤ a + 1) × (a < length core.now) }
    requires b { (n ≤ b + 1) × (b < length core.now) }
    ensures most { result ≤ n }
    ensures kept { highest_difference core.now a b result ≡ highest_difference core.now a b n }
{
    let mut left = n;
    while left >= BLOCK && !core.chars_differ(a - (left - BLOCK), b - (left - BLOCK), BLOCK) {
        left -= BLOCK;
    }
    left
}

/// Whether the character of B is higher than that of A in the pair that decides, if there is one.
#[inline(always)]
fn is_higher(core: &Core, a: u16, b: u16, pair: Option<u16>) -> bool
    requires a { IfSome pair (λ i. (i ≤ a) × (a < length core.now)) }
    requires b { IfSome pair (λ i. (i ≤ b) × (b < length core.now)) }
    requires differ { IfSome pair (λ i. (cell_at core.now (a - i)).char ≢ (cell_at core.now (b - i)).char) }
    ensures value { result ≡ is_higher core.now a b pair }

    // Characters that differ have different places in the collating order.
    ensures apart { IfSome pair (λ i. order_at core.now (a - i) ≢ order_at core.now (b - i)) }
{
    match pair {
        Some(i) => core.get(a - i).char.order() < core.get(b - i).char.order(),
        None => false,
    }
}
