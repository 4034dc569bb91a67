//! The text of an image.
ghost use Rattle.std.specs.Prelude.{◌≡◌, ◌≤◌, ◌++◌, true, length, vec_capacity, IfOk, OnOk, OnErr};
ghost use Rattle.std.specs.List.{flat_map, list_all};
ghost use Rattle.machine_notation.specs.Room.{LacksRoomFor};
ghost use Rattle.machine_image.specs.Image.{IsInCore};
ghost use Rattle.machine_image.specs.ImageText.{header_text, segment_text, end_text, segments_text};
ghost use Rattle.machine_image.specs.ImageText.{image_text, written_text, line_of, is_segment, IsTextOf};

use crate::image::{Image, Segment};
use crate::version::Version;
use machine_notation::{put_cells, put_digits, put_named_digits};
use std::alloc::{AllocError, Global};

/// How many digits a segment's count of cells has.
pub(crate) const COUNT_DIGITS: u8 = 2;

/// How many bytes a line of version 2 has at most, with its line feed.
pub const MOST_IN_LINE: usize = 90;

/// The text of an image, in version 2.
///
/// # Errors
///
/// If the memory for the text is refused.
#[tactic(auto, unfolding(crate::specs::ImageText::image_text))]
pub fn write_image(alloc: Global, image: &Image) -> Result<Vec<u8>, AllocError>
    requires { IsInCore image.now }
    ensures text { IfOk result (λ text. text.items ≡ written_text image.now) }

    // It is a text that is read as the image.
    ensures again { IfOk result (λ text. IsTextOf text.items image.now) }
{
    let version = Version::Two;
    let mut text = Vec::new(alloc);
    put_header(&mut text, version, image.size)?;
    put_segments(&mut text, version, image.segments.as_slice())?;
    put_end(&mut text, version, image.start)?;
    Ok(text)
}

/// Adds the first line, for core storage of this size.
///
/// # Errors
///
/// If the memory for the text is refused. Some of the line may have been added by then.
#[tactic(auto, unfolding(crate::specs::ImageText::header_text))]
pub fn put_header(text: &mut Vec<u8>, version: Version, size: u16) -> Result<(), AllocError>
    ensures text { OnOk result (text.new.items ≡ text.old.items ++ line_of (header_text version size)) }

    // Memory is refused only where there is no room.
    ensures full { OnErr result (LacksRoomFor text.old (line_of (header_text version size))) }
    ensures capacity { vec_capacity text.old ≤ vec_capacity text.new }
{
    put_named_digits(
        text,
        version.name(),
        version.address_digits(),
        u64::from(size),
    )?;
    text.push(b'\n')?;
    Ok(())
}

/// Adds the lines of segments.
#[tactic(auto, unfolding(crate::specs::ImageText::segments_text))]
fn put_segments(
    text: &mut Vec<u8>,
    version: Version,
    segments: &[Segment],
) -> Result<(), AllocError>
    ensures text { OnOk result (text.new.items ≡ text.old.items ++ segments_text version segments.now) }
    ensures cells { OnOk result (list_all is_segment segments.now ≡ true) }
{
    for segment in segments {
        put_segment(text, version, segment)?;
    }
    Ok(())
}

/// Adds the line of a segment.
///
/// # Errors
///
/// If the memory for the text is refused. Some of the line may have been added by then.
#[tactic(auto, unfolding(crate::specs::ImageText::segment_text))]
pub fn put_segment(
    text: &mut Vec<u8>,
    version: Version,
    segment: &Segment,
) -> Result<(), AllocError>
    ensures text { OnOk result (text.new.items ≡ text.old.items ++ line_of (segment_text version segment.now)) }
    ensures cells { OnOk result (is_segment segment.now ≡ true) }

    // Memory is refused only where there is no room.
    ensures full { OnErr result (LacksRoomFor text.old (line_of (segment_text version segment.now))) }
    ensures capacity { vec_capacity text.old ≤ vec_capacity text.new }
{
    let count = segment.cells.as_slice().len();
    put_digits(text, version.address_digits(), u64::from(segment.address))?;
    text.push(b' ')?;
    put_digits(text, COUNT_DIGITS, count as u64)?;
    text.push(b' ')?;
    put_cells(text, &segment.cells)?;
    text.push(b'\n')?;
    Ok(())
}

/// Adds the last line, with this entry.
///
/// # Errors
///
/// If the memory for the text is refused. Some of the line may have been added by then.
#[tactic(auto, unfolding(crate::specs::ImageText::end_text))]
pub fn put_end(text: &mut Vec<u8>, version: Version, start: u16) -> Result<(), AllocError>
    ensures text { OnOk result (text.new.items ≡ text.old.items ++ line_of (end_text version start)) }

    // Memory is refused only where there is no room.
    ensures full { OnErr result (LacksRoomFor text.old (line_of (end_text version start))) }
    ensures capacity { vec_capacity text.old ≤ vec_capacity text.new }
{
    put_named_digits(text, b"END ", version.address_digits(), u64::from(start))?;
    text.push(b'\n')?;
    Ok(())
}
