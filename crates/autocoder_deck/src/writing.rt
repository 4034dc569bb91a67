//! The listing of an image, written as it is made.
ghost use Rattle.std.specs.Prelude.{◌≡◌, ◌+◌, ◌++◌, ◌<◌, ◌≤◌, ℕ, List, [], length, vec_capacity, IsTrue};
ghost use Rattle.std.specs.Prelude.{IfOk, OnOk, OnErr};
ghost use Rattle.std.specs.Io.KnownBytes.{Appends};
ghost use Rattle.bcd_1401.specs.declared.cell.Cell.{Cell as ACell};
ghost use Rattle.core_1401.specs.Cells.{most_cells};
ghost use Rattle.autocoder_placing.specs.Cells.{numbered};
ghost use Rattle.bytes_streams.specs.Page.{most_in_page, Sent};
ghost use Rattle.bytes_streams.specs.Sink.{AppendsPart};
ghost use Rattle.autocoder_deck.specs.ImageListing.{listing_text, most_in_segment, start_line};
ghost use Rattle.autocoder_deck.specs.Stretches.{placed_cells, IsReady};
ghost use Rattle.autocoder_deck.specs.Writing.{listed, HasRoom};

use crate::image_listing::{put_lines, put_segment, put_start};
use autocoder_placing::Builder;
use bytes_streams::{Failed, PAGE, Sink, make_room, put_all};
use core_1401::MOST_CELLS;
use machine_image::{LentImage, Segment};
use std::alloc::{AllocError, Global};

/// The most bytes that the stretches of a segment take: 96 for each of its cells.
const SEGMENT_BYTES: usize = 3_840;

/// Room in which the listing of an image is made, a page after the other, however long it is.
#[derive(Drop)]
pub struct ListingRoom {
    /// What isn't written yet.
    text: Vec<u8>,
    /// The stretch that may go on.
    builder: Builder,
}

impl ListingRoom {
    /// Room for a page, and for the stretches of a segment.
    ///
    /// # Errors
    ///
    /// If the memory is refused.
    pub fn reserve(alloc: Global) -> Result<ListingRoom, AllocError>
        ensures { IfOk result HasRoom }
    {
        Ok(ListingRoom {
            text: Vec::with_capacity(alloc, PAGE)?,
            builder: Builder {
                done: Vec::with_capacity(alloc, MOST_CELLS)?,
                address: 0,
                cells: Vec::with_capacity(alloc, MOST_CELLS)?,
            },
        })
    }
}

/// Adds the lines of the stretches of a segment, but for the last stretch, which may go on. There is room for them.
fn put_in_room(text: &mut Vec<u8>, builder: &mut Builder, segment: &Segment)
    requires ready { IsReady builder.old }
    requires room { length text.old.items + most_in_segment ≤ vec_capacity text.old }
    ensures text { (rest : List (ℕ × ACell)) → listed text.new builder.new rest
        ≡ listed text.old builder.old (numbered segment.now.address segment.now.cells ++ rest) }
    ensures ready { IsReady builder.new }
    ensures capacity { vec_capacity text.old ≤ vec_capacity text.new }
{
    match put_segment(text, &[], builder, segment) {
        Ok(()) => {},
        Err(_) => unreachable!(),
    }
}

/// Writes the lines of the stretches of an image, but for those that still have room, and for the last stretch.
fn write_segments<W: Sink>(
    text: &mut Vec<u8>,
    builder: &mut Builder,
    image: &LentImage<'_>,
    writer: &mut W,
) -> Result<(), Failed>
    requires ready { IsReady builder.old }
    requires room { most_in_page ≤ vec_capacity text.old }
    ensures sent { OnOk result (Sent (W.received writer.old) (W.received writer.new)
        (listed text.old builder.old (placed_cells image.now.segments)) (listed text.new builder.new [])) }
    ensures part { OnErr result (AppendsPart (W.received writer.old) (W.received writer.new)
        (listed text.old builder.old (placed_cells image.now.segments))) }
    ensures failed { OnErr result (IsTrue (W.has_failed writer.new)) }
    ensures ready { OnOk result (IsReady builder.new) }
    ensures room { OnOk result (most_in_page ≤ vec_capacity text.new) }
{
    let mut rest = image.again();
    while let Some((segment, beyond)) = rest.split_first() {
        make_room(text, SEGMENT_BYTES, writer)?;
        put_in_room(text, builder, &segment);
        rest = beyond;
    }
    Ok(())
}

/// Adds the line of the last stretch, and the last line. There is room for them.
fn put_last(text: &mut Vec<u8>, builder: &mut Builder, start: u16)
    requires ready { IsReady builder.old }
    requires room { length text.old.items + most_in_segment ≤ vec_capacity text.old }
    ensures { text.new.items ≡ listed text.old builder.old [] ++ start_line start }
{
    match close(text, builder, start) {
        Ok(()) => {},
        Err(_) => unreachable!(),
    }
}

/// Adds the line of the last stretch, and the last line.
fn close(text: &mut Vec<u8>, builder: &mut Builder, start: u16) -> Result<(), AllocError>
    requires { builder.old.done.items ≡ [] }
    ensures text { OnOk result (text.new.items ≡ listed text.old builder.old [] ++ start_line start) }
    ensures full { IsReady builder.old
        → OnErr result (vec_capacity text.old < length text.old.items + most_in_segment) }
{
    builder.close()?;
    put_lines(text, &[], &builder.done)?;
    put_start(text, start)
}

/// Writes the lines that are left.
fn write_last<W: Sink>(
    text: &mut Vec<u8>,
    builder: &mut Builder,
    start: u16,
    writer: &mut W,
) -> Result<(), Failed>
    requires ready { IsReady builder.old }
    requires room { most_in_page ≤ vec_capacity text.old }
    ensures ok { OnOk result (Appends (W.received writer.old) (W.received writer.new)
        (listed text.old builder.old [] ++ start_line start)) }
    ensures part { OnErr result (AppendsPart (W.received writer.old) (W.received writer.new)
        (listed text.old builder.old [] ++ start_line start)) }
    ensures failed { OnErr result (IsTrue (W.has_failed writer.new)) }
{
    make_room(text, SEGMENT_BYTES, writer)?;
    put_last(text, builder, start);
    put_all(writer, text.as_slice())
}

/// Writes the listing of an image, as `list_marked` makes it, without asterisks. Of the image one segment is held at a
/// time, of the listing one page, and no memory is asked for.
///
/// # Errors
///
/// If a write has failed or fails, or takes nothing.
pub fn write_listing<W: Sink>(
    room: ListingRoom,
    image: &LentImage<'_>,
    writer: &mut W,
) -> Result<(), Failed>
    requires { HasRoom room }
    ensures ok { OnOk result (Appends (W.received writer.old) (W.received writer.new) (listing_text image.now)) }
    ensures part { OnErr result
        (AppendsPart (W.received writer.old) (W.received writer.new) (listing_text image.now)) }
    ensures failed { OnErr result (IsTrue (W.has_failed writer.new)) }
{
    let ListingRoom {
        mut text,
        mut builder,
    } = room;
    write_segments(&mut text, &mut builder, image, writer)?;
    write_last(&mut text, &mut builder, image.start(), writer)
}
