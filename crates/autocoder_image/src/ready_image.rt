//! The text of a packed image, written as it is made: all memory is asked for before the first byte.
ghost use Rattle.std.specs.Prelude.{◌≡◌, ◌++◌, true, IsTrue, IfOk, OnOk, OnErr};
ghost use Rattle.std.specs.Io.KnownBytes.{Appends};
ghost use Rattle.bytes_streams.specs.Sink.{AppendsPart};
ghost use Rattle.machine_image.specs.declared.version.Version.TheVariants.{Two};
ghost use Rattle.machine_image.specs.ImageText.{segments_text};
ghost use Rattle.bytes_streams.specs.Page.{Sent};
ghost use Rattle.autocoder_image.specs.Pages.{unwritten, HasRoom};
ghost use Rattle.autocoder_image.specs.ReadyImage.{text_of, HasPages};

use crate::image_pages::ImagePages;
use crate::packed_image::PackedImage;
use bytes_streams::{Failed, Sink};
use std::alloc::{AllocError, Global};

/// A packed image whose text is ready to be written: it needs no more memory.
#[derive(Drop)]
pub struct ReadyImage {
    /// The image.
    image: PackedImage,
    /// Room for a page of its text.
    pages: ImagePages,
}

impl ReadyImage {
    /// An image with room for a page of its text.
    ///
    /// # Errors
    ///
    /// If the memory is refused.
    pub fn reserve(alloc: Global, image: PackedImage) -> Result<ReadyImage, AllocError>
        ensures image { IfOk result (λ ready. ready.image ≡ image) }
        ensures ready { IfOk result HasPages }
    {
        Ok(ReadyImage {
            image,
            pages: ImagePages::reserve(alloc)?,
        })
    }
}

/// Puts the lines of an image's segments.
fn put_segments<W: Sink>(
    pages: &mut ImagePages,
    image: &PackedImage,
    writer: &mut W,
) -> Result<(), Failed>
    requires { HasRoom pages.old }
    ensures sent { OnOk result (Sent (W.received writer.old) (W.received writer.new)
        (unwritten pages.old ++ segments_text Two image.now.segments) (unwritten pages.new)) }
    ensures part { OnErr result (AppendsPart (W.received writer.old) (W.received writer.new)
        (unwritten pages.old ++ segments_text Two image.now.segments)) }
    ensures failed { OnErr result (IsTrue (W.has_failed writer.new)) }
    ensures room { OnOk result (HasRoom pages.new) }
{
    let mut rest = image.segments();
    while let Some((segment, beyond)) = rest.split_first() {
        pages.put_segment(&segment, writer)?;
        rest = beyond;
    }
    Ok(())
}

/// Writes the text of an image that is ready, in version 2. One page of it is held at a time, and no memory is asked for.
///
/// # Errors
///
/// If a write has failed or fails, or takes nothing.
pub fn write_packed<W: Sink>(ready: ReadyImage, writer: &mut W) -> Result<(), Failed>
    requires { HasPages ready }
    ensures ok { OnOk result (Appends (W.received writer.old) (W.received writer.new) (text_of ready)) }
    ensures part { OnErr result (AppendsPart (W.received writer.old) (W.received writer.new) (text_of ready)) }
    ensures failed { OnErr result (IsTrue (W.has_failed writer.new)) }
{
    let ReadyImage { image, mut pages } = ready;
    pages.put_header(image.size(), writer)?;
    put_segments(&mut pages, &image, writer)?;
    pages.put_end(image.start(), writer)?;
    pages.write_rest(writer)
}
