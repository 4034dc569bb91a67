//! What the subcommand `assemble` does.
ghost use Rattle.std.specs.Prelude.{◌≡◌, ◌++◌, true, false, if◌then◌else◌, [], Ok, Err, Some, None, IfOk, IfErr, OnOk};
ghost use Rattle.std.specs.Prelude.{OnErr};
ghost use Rattle.core_1401.specs.Storage.{is_core_size};
ghost use Rattle.machine_image.specs.Image.{IsInCore};
ghost use Rattle.autocoder_statements.specs.SourceLine.{lines_of};
ghost use Rattle.machine_image.specs.ImageText.{written_text, IsTextOf};
ghost use Rattle.autocoder_image.specs.ReadyImage.{text_of, HasPages};
ghost use Rattle.autocoder_listing.specs.Writing.{IsReadyFor, text_for};
ghost use Rattle.autocoder_1401.specs.Assembly.{assembly_in, with_listing};
ghost use Rattle.program_arguments.specs.declared.call.Product.TheVariants.{Image as InImage, Listing, Tables as InTables};
ghost use Rattle.program_convert.specs.Assemble.{with_part, with_part_if, tables_text, IsProductOf, IsWhyNotAssembled};
ghost use Rattle.program_convert.specs.ReadyTables.{has_some, separator, ready_text, AreReadyFor, IsReady};
ghost use Rattle.program_convert.specs.ReadyTables.{product_text};
ghost use Rattle.program_convert.specs.Assemble.{IsDeckOf, IsWhyNoDeckOf, Wrote, AssembleDid};

use crate::fault::AssembleFault;
use autocoder_1401::{
    AssemblyTables, PackedImage, ReadyImage, ReadyListing, assemble_image, assemble_listing,
    assemble_packed, assemble_with_tables, write_listing, write_packed,
};
use autocoder_deck::{DeckFault, write_deck};
use autocoder_statements::{Language, split_line};
use bytes_streams::{Sink, put_all};
use core_1401::Core;
use machine_image::Image;
use program_arguments::{Product, Tables};
use std::alloc::{AllocError, Global};

/// What parts the listing and the tables.
const EMPTY_LINE: &[u8] = b"\n";

/// The listing of a source, if it is asked for, and its tables, ready to be written.
#[derive(Drop)]
pub(crate) struct ReadyTables {
    /// The listing.
    listing: Option<ReadyListing>,
    /// The tables.
    rest: Vec<u8>,
}

/// Looks at the size of core storage that is asked for.
///
/// # Errors
///
/// `Size` if none of that size is made.
pub fn check_size(size: u16) -> Result<(), AssembleFault>
    ensures ok { OnOk result (is_core_size size ≡ true) }
    ensures err { OnErr result ((result ≡ Err AssembleFault.Size) × (is_core_size size ≡ false)) }
{
    if Core::is_size(size) {
        Ok(())
    } else {
        Err(AssembleFault::Size)
    }
}

/// What is written of a source, ready: it needs no more memory.
#[derive(Drop)]
pub(crate) enum ReadyProduct {
    /// Its image.
    Image(ReadyImage),
    /// Its listing.
    Listing(ReadyListing),
    /// Its tables.
    Tables(ReadyTables),
}

/// Writes what a source stands for: the text of its image, its listing, or its tables.
///
/// # Errors
///
/// `Source` if the source can't be assembled, and `Memory` if there is no room for the text; nothing is written
/// then. `Output` if the text isn't written, or a part of it alone.
pub fn write_assembly<W: Sink>(
    alloc: Global,
    language: Language,
    source: &[u8],
    size: u16,
    product: Product,
    writer: &mut W,
) -> Result<(), AssembleFault>
    requires { is_core_size size ≡ true }
    ensures { AssembleDid language size source.now product (W.received writer.old) (W.received writer.new)
        (W.has_failed writer.new) result }
{
    match ready_product(alloc, language, source, size, product) {
        Ok(ready) => write_ready_product(ready, source, writer),
        Err(fault) => Err(fault),
    }
}

/// What a source stands for, ready to be written: its image, its listing, or its tables.
///
/// # Errors
///
/// `Source` if the source can't be assembled, and `Memory` if there is no room.
pub(crate) fn ready_product(
    alloc: Global,
    language: Language,
    source: &[u8],
    size: u16,
    product: Product,
) -> Result<ReadyProduct, AssembleFault>
    requires { is_core_size size ≡ true }
    ensures ok { IfOk result
        (λ ready. IsProductOf language size source.now product (product_text source.now ready)) }
    ensures ready { IfOk result (IsReady source.now) }
    ensures err { IfErr result (IsWhyNotAssembled language size source.now) }
{
    match product {
        Product::Image => match source_image(alloc, language, source, size) {
            Ok(image) => Ok(ReadyProduct::Image(image)),
            Err(fault) => Err(fault),
        },
        Product::Listing => match source_listing(alloc, language, source, size) {
            Ok(listing) => Ok(ReadyProduct::Listing(listing)),
            Err(fault) => Err(fault),
        },
        Product::Tables(asked) => match source_tables(alloc, language, source, size, asked) {
            Ok(tables) => Ok(ReadyProduct::Tables(tables)),
            Err(fault) => Err(fault),
        },
    }
}

/// Writes what a source stands for, once it is ready.
///
/// # Errors
///
/// `Output` if it isn't written, or a part of it alone.
pub(crate) fn write_ready_product<W: Sink>(
    ready: ReadyProduct,
    source: &[u8],
    writer: &mut W,
) -> Result<(), AssembleFault>
    requires { IsReady source.now ready }
    ensures { Wrote (product_text source.now ready) (W.received writer.old) (W.received writer.new)
        (W.has_failed writer.new) result }
{
    match ready {
        ReadyProduct::Image(image) => write_ready_image(image, writer),
        ReadyProduct::Listing(listing) => write_ready(listing, source, writer),
        ReadyProduct::Tables(tables) => write_tables(tables, source, writer),
    }
}

/// Writes the text of an image that is ready.
fn write_ready_image<W: Sink>(ready: ReadyImage, writer: &mut W) -> Result<(), AssembleFault>
    requires { HasPages ready }
    ensures { Wrote (text_of ready) (W.received writer.old) (W.received writer.new)
        (W.has_failed writer.new) result }
{
    match write_packed(ready, writer) {
        Ok(()) => Ok(()),
        Err(_) => Err(AssembleFault::Output),
    }
}

/// Writes a listing that is ready.
fn write_ready<W: Sink>(
    ready: ReadyListing,
    source: &[u8],
    writer: &mut W,
) -> Result<(), AssembleFault>
    requires { IsReadyFor source.now ready }
    ensures { Wrote (text_for source.now ready) (W.received writer.old) (W.received writer.new)
        (W.has_failed writer.new) result }
{
    match write_listing(ready, source, writer) {
        Ok(()) => Ok(()),
        Err(_) => Err(AssembleFault::Output),
    }
}

/// The image of a source.
fn image_of(
    alloc: Global,
    language: Language,
    source: &[u8],
    size: u16,
) -> Result<Image, AssembleFault>
    ensures ok { IfOk result (λ image.
        assembly_in language size source.now ≡ Ok (with_listing language source.now image)) }
    ensures in_core { is_core_size size ≡ true → IfOk result IsInCore }
    ensures err { IfErr result (IsWhyNotAssembled language size source.now) }
{
    match assemble_image(alloc, language, source, size) {
        Ok(image) => Ok(image),
        Err(fault) => Err(AssembleFault::Source(fault)),
    }
}

/// The image of a source in few bytes.
fn packed_image(
    alloc: Global,
    language: Language,
    source: &[u8],
    size: u16,
) -> Result<PackedImage, AssembleFault>
    ensures ok { IfOk result (λ image.
        assembly_in language size source.now ≡ Ok (with_listing language source.now image)) }
    ensures again { is_core_size size ≡ true → IfOk result (λ image. IsTextOf (written_text image) image) }
    ensures err { IfErr result (IsWhyNotAssembled language size source.now) }
{
    match assemble_packed(alloc, language, source, size) {
        Ok(image) => Ok(image),
        Err(fault) => Err(AssembleFault::Source(fault)),
    }
}

/// The image of a source, ready to be written.
fn source_image(
    alloc: Global,
    language: Language,
    source: &[u8],
    size: u16,
) -> Result<ReadyImage, AssembleFault>
    requires { is_core_size size ≡ true }
    ensures ok { IfOk result (λ ready. IsProductOf language size source.now InImage (text_of ready)) }
    ensures ready { IfOk result HasPages }
    ensures err { IfErr result (IsWhyNotAssembled language size source.now) }
{
    match packed_image(alloc, language, source, size) {
        Ok(image) => match ReadyImage::reserve(alloc, image) {
            Ok(ready) => Ok(ready),
            Err(_) => Err(AssembleFault::Memory),
        },
        Err(fault) => Err(fault),
    }
}

/// The text of the deck that brings a source's image into core storage, and starts it.
///
/// # Errors
///
/// `Source` if the source can't be assembled, `Deck` if its image has something in the places where a deck's cards
/// are read, and `Memory` if there is no room for the text.
pub(crate) fn source_deck(
    alloc: Global,
    language: Language,
    source: &[u8],
    size: u16,
) -> Result<Vec<u8>, AssembleFault>
    requires { is_core_size size ≡ true }
    ensures ok { IfOk result (λ text. IsDeckOf language size source.now text.items) }
    ensures err { IfErr result (IsWhyNoDeckOf language size source.now) }
{
    let image = match image_of(alloc, language, source, size) {
        Ok(image) => image,
        Err(fault) => return Err(fault),
    };
    match write_deck(alloc, &image) {
        Ok(text) => Ok(text),
        Err(DeckFault::Memory) => Err(AssembleFault::Memory),
        Err(DeckFault::Place(place)) => Err(AssembleFault::Deck(DeckFault::Place(place))),
    }
}

/// The listing of a source, ready to be written.
fn source_listing(
    alloc: Global,
    language: Language,
    source: &[u8],
    size: u16,
) -> Result<ReadyListing, AssembleFault>
    ensures ok { IfOk result (λ ready. IsProductOf language size source.now Listing (text_for source.now ready)) }
    ensures ready { IfOk result (IsReadyFor source.now) }
    ensures err { IfErr result (IsWhyNotAssembled language size source.now) }
{
    match assemble_listing(alloc, language, source, size) {
        Ok(ready) => Ok(ready),
        Err(why) => Err(AssembleFault::Source(why)),
    }
}

/// The tables of a source, ready to be written.
fn source_tables(
    alloc: Global,
    language: Language,
    source: &[u8],
    size: u16,
    asked: Tables,
) -> Result<ReadyTables, AssembleFault>
    ensures ok { IfOk result
        (λ tables. IsProductOf language size source.now (InTables asked) (ready_text source.now tables)) }
    ensures ready { IfOk result (AreReadyFor source.now) }
    ensures err { IfErr result (IsWhyNotAssembled language size source.now) }
{
    let made = match assemble_with_tables(alloc, language, source, size) {
        Ok(made) => made,
        Err(why) => return Err(AssembleFault::Source(why)),
    };
    match ready_tables(alloc, made, source, asked) {
        Ok(tables) => Ok(tables),
        Err(_) => Err(AssembleFault::Memory),
    }
}

/// The listing, if it is asked for.
fn listing_if(asked: bool, listing: ReadyListing) -> Option<ReadyListing>
    ensures { result ≡ if asked then Some listing else None }
{
    if asked { Some(listing) } else { None }
}

/// The tables that are asked for, of this source.
fn ready_tables(
    alloc: Global,
    made: AssemblyTables,
    source: &[u8],
    asked: Tables,
) -> Result<ReadyTables, AllocError>
    requires { IsReadyFor source.now made.listing }
    ensures text { IfOk result (λ tables. ready_text source.now tables ≡ tables_text asked
        (text_for source.now made.listing) made.symbols.items made.references.items) }
    ensures ready { IfOk result (AreReadyFor source.now) }
{
    match rest_text(
        alloc,
        made.symbols.as_slice(),
        made.references.as_slice(),
        asked,
    ) {
        Ok(rest) => Ok(ReadyTables {
            listing: listing_if(asked.listing, made.listing),
            rest,
        }),
        Err(fault) => Err(fault),
    }
}

/// The symbol table and the cross-reference, if they are asked for, an empty line between them.
fn rest_text(
    alloc: Global,
    symbols: &[u8],
    references: &[u8],
    asked: Tables,
) -> Result<Vec<u8>, AllocError>
    ensures { IfOk result (λ text. text.items
        ≡ with_part_if asked.references (with_part_if asked.symbols [] symbols.now) references.now) }
{
    let mut text = Vec::new(alloc);
    if asked.symbols {
        put_part(&mut text, symbols)?;
    }
    if asked.references {
        put_part(&mut text, references)?;
    }
    Ok(text)
}

/// Whether a source has a line.
fn has_lines(source: &[u8]) -> bool
    ensures { result ≡ has_some (lines_of source.now) }
{
    split_line(source).is_some()
}

/// What parts the listing of a source from the tables.
fn separator(has_lines: bool, rest: &[u8]) -> &[u8]
    ensures { result.now ≡ separator has_lines rest.now }
{
    if has_lines && !rest.is_empty() {
        EMPTY_LINE
    } else {
        &[]
    }
}

/// Writes tables that are ready.
fn write_tables<W: Sink>(
    tables: ReadyTables,
    source: &[u8],
    writer: &mut W,
) -> Result<(), AssembleFault>
    requires { AreReadyFor source.now tables }
    ensures { Wrote (ready_text source.now tables) (W.received writer.old) (W.received writer.new)
        (W.has_failed writer.new) result }
{
    let ReadyTables { listing, rest } = tables;
    match listing {
        Some(ready) => write_with_listing(ready, source, rest.as_slice(), writer),
        None => write_text(rest.as_slice(), writer),
    }
}

/// Writes a listing that is ready, and tables after it.
fn write_with_listing<W: Sink>(
    ready: ReadyListing,
    source: &[u8],
    rest: &[u8],
    writer: &mut W,
) -> Result<(), AssembleFault>
    requires { IsReadyFor source.now ready }
    ensures { Wrote (with_part (text_for source.now ready) rest.now) (W.received writer.old) (W.received writer.new)
        (W.has_failed writer.new) result }
{
    match write_ready(ready, source, writer) {
        Ok(()) => write_parts(separator(has_lines(source), rest), rest, writer),
        Err(fault) => Err(fault),
    }
}

/// Writes two texts, one after the other.
fn write_parts<W: Sink>(first: &[u8], rest: &[u8], writer: &mut W) -> Result<(), AssembleFault>
    ensures { Wrote (first.now ++ rest.now) (W.received writer.old) (W.received writer.new)
        (W.has_failed writer.new) result }
{
    write_text(first, writer)?;
    write_text(rest, writer)
}

/// Adds a part, after an empty line if there is something before it.
fn put_part(text: &mut Vec<u8>, part: &[u8]) -> Result<(), AllocError>
    ensures { OnOk result (text.new.items ≡ with_part text.old.items part.now) }
{
    if !text.is_empty() && !part.is_empty() {
        text.extend_from_slice(EMPTY_LINE)?;
    }
    text.extend_from_slice(part)
}

/// Writes a text.
///
/// # Errors
///
/// `Output` if it isn't written, or a part of it alone.
pub(crate) fn write_text<W: Sink>(text: &[u8], writer: &mut W) -> Result<(), AssembleFault>
    ensures { Wrote text.now (W.received writer.old) (W.received writer.new) (W.has_failed writer.new) result }
{
    match put_all(writer, text) {
        Ok(()) => Ok(()),
        Err(_) => Err(AssembleFault::Output),
    }
}
