//! The listing of a source, written as it is made: all memory is asked for before the first byte.
ghost use Rattle.std.specs.Prelude.{◌≡◌, ◌+◌, ◌++◌, ◌<◌, ◌≤◌, ◌^◌, ℕ, Some, [], length, codes, vec_capacity, IsTrue};
ghost use Rattle.std.specs.Prelude.{IfOk, IfErr, OnOk, OnErr};
ghost use Rattle.std.specs.Io.KnownBytes.{Appends};
ghost use Rattle.bytes_streams.specs.Sink.{AppendsPart};
ghost use Rattle.machine_notation.specs.Digits.{digits_in};
ghost use Rattle.autocoder_statements.specs.SourceLine.{lines_of};
ghost use Rattle.autocoder_symbols.specs.Fault.{IsMemory};
ghost use Rattle.autocoder_placing.specs.Placement.{unplaced};
ghost use Rattle.autocoder_placing.specs.View.{places_of};
ghost use Rattle.autocoder_listing.specs.Heads.{front_of, head_at, heads_after, literals_before, literals_after};
ghost use Rattle.autocoder_listing.specs.Heads.{written_for, written};
ghost use Rattle.autocoder_listing.specs.Listing.{address_text, most_digits, line_text, listing_from, listing_text};
ghost use Rattle.autocoder_listing.specs.Listing.{without_last_blanks};
ghost use Rattle.autocoder_listing.specs.Pages.{Puts};
ghost use Rattle.autocoder_listing.specs.Writing.{most_in_front, IsReadyFor, text_for};

use crate::heads::{Head, Heads, make_heads};
use crate::pages::Pages;
use crate::printing::{ADDRESS_DIGITS, NUMBER_DIGITS, cut_last_blanks, len_without_last_blanks};
use autocoder_placing::Placing;
use autocoder_statements::split_line;
use autocoder_symbols::{AsmFault, Lines};
use bytes_streams::{Failed, Sink};
use machine_notation::put_digits;
use std::alloc::{AllocError, Global};

/// The most bytes that precede the line of the source on its line of the listing: a number and an address of up to 20
/// digits, eight characters, and three blanks.
const MOST_IN_FRONT: usize = 64;

/// The listing of a source, ready to be written: it needs no more memory.
#[derive(Drop)]
pub struct ReadyListing {
    /// What its lines have besides the source.
    heads: Heads,
    /// What isn't written yet.
    page: Pages,
    /// What precedes the line of the source on the line that is being made.
    front: Vec<u8>,
}

/// Makes the listing of the lines of this source ready to be written, once all is placed.
///
/// # Errors
///
/// `Memory` if there is no room.
#[tactic(auto, unfolding(crate::specs::Listing::listing_text))]
pub fn ready_listing(
    alloc: Global,
    all: &Placing<'_>,
    source: &[u8],
    lines: &Lines<'_>,
) -> Result<ReadyListing, AsmFault>
    requires as_many { length lines.now ≡ length (lines_of source.now) }
    requires few { length lines.now < 2 ^ 32 }
    ensures text { IfOk result (λ ready. text_for source.now ready ≡ listing_text
        (listing_from (places_of all.now) (unplaced (places_of all.now)) 1 lines.now (lines_of source.now))) }
    ensures ready { IfOk result (IsReadyFor source.now) }
    ensures err { IfErr result IsMemory }
{
    let page = Pages::new(alloc)?;
    let front = Vec::with_capacity(alloc, MOST_IN_FRONT)?;
    let heads = make_heads(alloc, all, source.len(), lines)?;
    Ok(ReadyListing { heads, page, front })
}

/// Adds a number with leading zeros up to the width: no more than 20 digits.
#[tactic(auto, using(crate::proofs::DigitsLemmas::few_added, crate::proofs::DigitsLemmas::few_lacking))]
fn put_few_digits(text: &mut Vec<u8>, width: u8, number: u64) -> Result<(), AllocError>
    requires { width ≤ most_digits }
    ensures ok { OnOk result (text.new.items ≡ text.old.items ++ digits_in width number) }
    ensures few { OnOk result (length text.new.items ≤ length text.old.items + most_digits) }
    ensures full { OnErr result (vec_capacity text.old < length text.old.items + most_digits) }
    ensures capacity { vec_capacity text.old ≤ vec_capacity text.new }
{
    put_digits(text, width, number)?;
    Ok(())
}

/// Adds an address and characters.
#[tactic(auto, unfolding(crate::specs::Listing::address_text))]
fn put_columns(text: &mut Vec<u8>, address: i64, characters: &[u8; 8]) -> Result<(), AllocError>
    ensures text { OnOk result (text.new.items ≡ text.old.items
        ++ (codes " " ++ address_text (Some address) ++ codes " " ++ characters.now ++ codes " ")) }
    ensures full { OnErr result (vec_capacity text.old < length text.old.items + 31) }
    ensures capacity { vec_capacity text.old ≤ vec_capacity text.new }
{
    text.push(b' ')?;
    put_few_digits(text, ADDRESS_DIGITS, address.unsigned_abs())?;
    text.push(b' ')?;
    text.extend_from_slice(characters)?;
    text.push(b' ')?;
    Ok(())
}

/// Adds what precedes the line of the source with this head: its number, an address and characters.
#[tactic(auto, unfolding(crate::specs::Listing::number_text, crate::specs::Listing::address_text))]
fn put_front(text: &mut Vec<u8>, number: u64, head: Option<Head>) -> Result<(), AllocError>
    ensures text { OnOk result (text.new.items ≡ text.old.items ++ front_of number head) }
    ensures full { OnErr result (vec_capacity text.old < length text.old.items + most_in_front) }
    ensures capacity { vec_capacity text.old ≤ vec_capacity text.new }
{
    put_few_digits(text, NUMBER_DIGITS, number)?;
    match head {
        Some(head) => put_columns(text, head.row.address, &head.row.characters),
        None => text.extend_from_slice(b"                "),
    }
}

/// Makes what precedes the line of the source with this head. There is room for it.
fn make_front(front: &mut Vec<u8>, number: u64, head: Option<Head>)
    requires { most_in_front ≤ vec_capacity front.old }
    ensures text { front.new.items ≡ front_of number head }
    ensures capacity { vec_capacity front.old ≤ vec_capacity front.new }
{
    front.clear();
    match put_front(front, number, head) {
        Ok(()) => {},
        Err(_) => unreachable!(),
    }
}

/// Cuts off the blanks at the end of a line of the listing: those of the source, and if that is all blank, those that
/// precede it.
fn cut_line<'a>(front: &mut Vec<u8>, source: &'a [u8]) -> &'a [u8]
    ensures line { front.new.items ++ result.now ≡ without_last_blanks (front.old.items ++ source.now) }
    ensures capacity { vec_capacity front.old ≤ vec_capacity front.new }
{
    let shown = len_without_last_blanks(source);
    if shown == 0 {
        cut_last_blanks(front);
        return &[];
    }
    &source[..shown]
}

/// The head of the line of this number, if the first of these is it.
fn head_at(heads: &[Head], number: u64) -> Option<Head>
    ensures { result ≡ head_at number heads.now }
{
    match heads {
        [head, ..] if head.row.number == number => Some(*head),
        _ => None,
    }
}

/// The heads that are left after a line.
fn heads_after(head: Option<Head>, heads: &[Head]) -> &[Head]
    ensures { result.now ≡ heads_after head heads.now }
{
    match head {
        Some(_) => heads.get(1..).unwrap_or(&[]),
        None => heads,
    }
}

/// The lines of the literals before a line.
fn literals_before(head: Option<Head>, literals: &[u8]) -> &[u8]
    ensures { result.now ≡ literals_before head literals.now }
{
    match head {
        Some(head) => &literals[..head.literals.min(literals.len())],
        None => &[],
    }
}

/// The lines of literals that are left after a line.
fn literals_after(head: Option<Head>, literals: &[u8]) -> &[u8]
    ensures { result.now ≡ literals_after head literals.now }
{
    match head {
        Some(head) => literals.get(head.literals..).unwrap_or(&[]),
        None => literals,
    }
}

/// Adds what the listing has for a line of the source to a page.
fn write_line<W: Sink>(
    pages: &mut Pages,
    front: &mut Vec<u8>,
    number: u64,
    head: Option<Head>,
    literals: &[u8],
    source: &[u8],
    writer: &mut W,
)
    requires { most_in_front ≤ vec_capacity front.old }
    ensures text { Puts
        (record { received = W.received writer.old; has_failed = W.has_failed writer.old; page = pages.old })
        (record { received = W.received writer.new; has_failed = W.has_failed writer.new; page = pages.new })
        (written_for number head literals.now source.now) }
    ensures front { vec_capacity front.old ≤ vec_capacity front.new }
{
    make_front(front, number, head);
    let shown = cut_line(front, source);
    pages.put(literals_before(head, literals), writer);
    pages.put(front.as_slice(), writer);
    pages.put(shown, writer);
    pages.put(b"\n", writer);
}

/// Writes the lines of a listing, but for those that still have room in the page.
fn write_lines<W: Sink>(
    pages: &mut Pages,
    front: &mut Vec<u8>,
    heads: &Heads,
    source: &[u8],
    writer: &mut W,
)
    requires front { most_in_front ≤ vec_capacity front.old }
    requires few { length (lines_of source.now) < 2 ^ 32 }
    ensures { Puts
        (record { received = W.received writer.old; has_failed = W.has_failed writer.old; page = pages.old })
        (record { received = W.received writer.new; has_failed = W.has_failed writer.new; page = pages.new })
        (written 1 heads.now.heads.items heads.now.literals.items (lines_of source.now)) }
{
    let mut rest = source;
    let mut left = heads.heads.as_slice();
    let mut literals = heads.literals.as_slice();
    let mut number = 1;
    while let Some((line, beyond)) = split_line(rest) {
        let head = head_at(left, number);
        write_line(pages, front, number, head, literals, line, writer);
        left = heads_after(head, left);
        literals = literals_after(head, literals);
        number += 1;
        rest = beyond;
    }
}

/// Writes the listing of a source that is ready: the text of `make_listing`, each line with its line feed. One page of it
/// is held at a time, and no memory is asked for.
///
/// # Errors
///
/// If a write has failed or fails, or takes nothing.
pub fn write_listing<W: Sink>(
    ready: ReadyListing,
    source: &[u8],
    writer: &mut W,
) -> Result<(), Failed>
    requires { IsReadyFor source.now ready }
    ensures ok { OnOk result (Appends (W.received writer.old) (W.received writer.new) (text_for source.now ready)) }
    ensures part { OnErr result
        (AppendsPart (W.received writer.old) (W.received writer.new) (text_for source.now ready)) }
    ensures failed { OnErr result (IsTrue (W.has_failed writer.new)) }
{
    let ReadyListing {
        heads,
        mut page,
        mut front,
    } = ready;
    write_lines(&mut page, &mut front, &heads, source, writer);
    page.end(writer)
}
