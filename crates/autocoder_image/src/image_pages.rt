//! The lines of an image's text, put into a page that is written when it is full.
ghost use Rattle.std.specs.Prelude.{◌≡◌, ◌++◌, ◌≤◌, true, vec_capacity, IsTrue, IfOk, OnOk, OnErr};
ghost use Rattle.std.specs.Io.KnownBytes.{Appends};
ghost use Rattle.bytes_streams.specs.Page.{Sent};
ghost use Rattle.bytes_streams.specs.Sink.{AppendsPart};
ghost use Rattle.machine_image.specs.declared.version.Version.TheVariants.{Two};
ghost use Rattle.machine_image.specs.ImageText.{header_text, segment_text, end_text, line_of, most_in_line};
ghost use Rattle.autocoder_image.specs.Pages.{HasRoom, IsEmpty, unwritten};

use bytes_streams::{Failed, PAGE, Sink, put_all, put_through};
use machine_image::{MOST_IN_LINE, Segment, Version, put_end, put_header, put_segment};
use std::alloc::{AllocError, Global};

/// Room in which the text of an image is made and written, a page after the other, in version 2. Its lines are put in
/// their order: the header, the segments, and the end. No memory is asked for.
#[derive(Drop)]
pub(crate) struct ImagePages {
    /// What isn't written yet.
    page: Vec<u8>,
    /// The line that is being made.
    line: Vec<u8>,
}

/// Makes the first line. There is room for it.
fn make_header(line: &mut Vec<u8>, size: u16)
    requires { most_in_line ≤ vec_capacity line.old }
    ensures text { line.new.items ≡ line_of (header_text Two size) }
    ensures capacity { vec_capacity line.old ≤ vec_capacity line.new }
{
    line.clear();
    match put_header(line, Version::Two, size) {
        Ok(()) => {},
        Err(_) => unreachable!(),
    }
}

/// Makes the line of a segment. There is room for it.
fn make_segment(line: &mut Vec<u8>, segment: &Segment)
    requires { most_in_line ≤ vec_capacity line.old }
    ensures text { line.new.items ≡ line_of (segment_text Two segment.now) }
    ensures capacity { vec_capacity line.old ≤ vec_capacity line.new }
{
    // Its address has 16 bits, and it has 40 cells at most.
    let _address = segment.address;
    let _cells = segment.cells.as_slice();
    line.clear();
    match put_segment(line, Version::Two, segment) {
        Ok(()) => {},
        Err(_) => unreachable!(),
    }
}

/// Makes the last line. There is room for it.
fn make_end(line: &mut Vec<u8>, start: u16)
    requires { most_in_line ≤ vec_capacity line.old }
    ensures text { line.new.items ≡ line_of (end_text Two start) }
    ensures capacity { vec_capacity line.old ≤ vec_capacity line.new }
{
    line.clear();
    match put_end(line, Version::Two, start) {
        Ok(()) => {},
        Err(_) => unreachable!(),
    }
}

impl ImagePages {
    /// Room for a page and a line.
    ///
    /// # Errors
    ///
    /// If the memory is refused.
    pub(crate) fn reserve(alloc: Global) -> Result<ImagePages, AllocError>
        ensures { IfOk result IsEmpty }
    {
        Ok(ImagePages {
            page: Vec::with_capacity(alloc, PAGE)?,
            line: Vec::with_capacity(alloc, MOST_IN_LINE)?,
        })
    }

    /// Puts the first line, for core storage of this size.
    ///
    /// # Errors
    ///
    /// If a write has failed or fails, or takes nothing.
    pub(crate) fn put_header<W: Sink>(&mut self, size: u16, writer: &mut W) -> Result<(), Failed>
        requires { HasRoom self.old }
        ensures sent { OnOk result (Sent (W.received writer.old) (W.received writer.new)
            (unwritten self.old ++ line_of (header_text Two size)) (unwritten self.new)) }
        ensures part { OnErr result (AppendsPart (W.received writer.old) (W.received writer.new)
            (unwritten self.old ++ line_of (header_text Two size))) }
        ensures failed { OnErr result (IsTrue (W.has_failed writer.new)) }
        ensures room { HasRoom self.new }
    {
        make_header(&mut self.line, size);
        put_through(&mut self.page, self.line.as_slice(), writer)
    }

    /// Puts the line of a segment.
    ///
    /// # Errors
    ///
    /// If a write has failed or fails, or takes nothing.
    pub(crate) fn put_segment<W: Sink>(
        &mut self,
        segment: &Segment,
        writer: &mut W,
    ) -> Result<(), Failed>
        requires { HasRoom self.old }
        ensures sent { OnOk result (Sent (W.received writer.old) (W.received writer.new)
            (unwritten self.old ++ line_of (segment_text Two segment.now)) (unwritten self.new)) }
        ensures part { OnErr result (AppendsPart (W.received writer.old) (W.received writer.new)
            (unwritten self.old ++ line_of (segment_text Two segment.now))) }
        ensures failed { OnErr result (IsTrue (W.has_failed writer.new)) }
        ensures room { HasRoom self.new }
    {
        make_segment(&mut self.line, segment);
        put_through(&mut self.page, self.line.as_slice(), writer)
    }

    /// Puts the last line, with this entry.
    ///
    /// # Errors
    ///
    /// If a write has failed or fails, or takes nothing.
    pub(crate) fn put_end<W: Sink>(&mut self, start: u16, writer: &mut W) -> Result<(), Failed>
        requires { HasRoom self.old }
        ensures sent { OnOk result (Sent (W.received writer.old) (W.received writer.new)
            (unwritten self.old ++ line_of (end_text Two start)) (unwritten self.new)) }
        ensures part { OnErr result (AppendsPart (W.received writer.old) (W.received writer.new)
            (unwritten self.old ++ line_of (end_text Two start))) }
        ensures failed { OnErr result (IsTrue (W.has_failed writer.new)) }
    {
        make_end(&mut self.line, start);
        put_through(&mut self.page, self.line.as_slice(), writer)
    }

    /// Writes what isn't written yet.
    ///
    /// # Errors
    ///
    /// If a write has failed or fails, or takes nothing.
    pub(crate) fn write_rest<W: Sink>(self, writer: &mut W) -> Result<(), Failed>
        ensures ok { OnOk result (Appends (W.received writer.old) (W.received writer.new) (unwritten self)) }
        ensures part { OnErr result
            (AppendsPart (W.received writer.old) (W.received writer.new) (unwritten self)) }
        ensures failed { OnErr result (IsTrue (W.has_failed writer.new)) }
    {
        let ImagePages { page, line: _ } = self;
        put_all(writer, page.as_slice())
    }
}
