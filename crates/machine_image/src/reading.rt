//! The image of a text.
ghost use Rattle.std.specs.Prelude.{◌≡◌, ◌<◌, ◌≤◌, ◌==◌, ◌∷◌, [], length, position, Some, None, Ok, Err};
ghost use Rattle.std.specs.Prelude.{if◌then◌else◌, IfOk, IfErr, IfSome, MatchOption};
ghost use Rattle.std.specs.Option.{option_map};
ghost use Rattle.machine_image.specs.ImageText.{HasTexts, IsTextOf, IsOrMemory};
ghost use Rattle.machine_image.specs.Lent.{entry_read};
ghost use Rattle.machine_image.specs.Refusal.{IsRefused};
ghost use Rattle.machine_image.specs.Reading.{number_at};
ghost use Rattle.machine_image.specs.Reading.{header_with, in_version, header_in, segment_in, end_in};
ghost use Rattle.machine_image.specs.Reading.{parts_of, entry_by, contents_in, image_of, image_in, as_segment, Gives};
ghost use Rattle.machine_image.specs.Reading.{IsOfText, inside_of};

use crate::fault::ImageFault;
use crate::image::{Image, Segment, Segments};
use crate::version::Version;
use crate::writing::COUNT_DIGITS;
use core_1401::Cells;
use machine_notation::{read_cells, read_digits};
use std::alloc::Global;
use std::marker::Model;

/// An image that is lent by its text: its segments are read one after the other, when they are asked for. It takes no
/// memory, however many they are. Contracts see the image.
#[derive(Drop)]
pub struct LentImage<'a> {
    version: Version,
    size: u16,
    start: u16,
    rest: &'a [u8],
}

impl<'a> Model for LentImage<'a> {
    ghost use Rattle.machine_image.specs.declared.image.Image.{Image};
    ghost use Rattle.machine_image.specs.Lent.{image_left, IsGood};

    ghost Value = { Image };

    ghost view = { λ lent. image_left lent.version lent.size lent.start lent.rest.now };

    ghost invariant = { λ lent. IsGood lent.version lent.size lent.start lent.rest.now };
}

/// The image of a text, kept.
///
/// # Errors
///
/// The fault of the text, as `lend_image` answers it. `Memory` if the text is an image's, and the memory for it is
/// refused.
pub fn read_image(alloc: Global, text: &[u8]) -> Result<Image, ImageFault>
    // What is read is the image whose text this is.
    ensures found { IfOk result (IsTextOf text.now) }

    // An image's text is read as the image, unless memory is refused.
    ensures again { (image : Image) → IsTextOf text.now image → IsOrMemory result image }

    // In which versions it has a text doesn't depend on the one that was read.
    ensures versions { IfOk result HasTexts }

    // Any other text is refused for its first wrong line.
    ensures fault { IfErr result (IsRefused text.now) }
{
    let lent = lend_image(text)?;
    keep(alloc, &lent)
}

/// The image of a text, lent: all of the text is checked, and no segment is stored.
///
/// # Errors
///
/// The fault of the text's first wrong line: `Truncated` if a line is due and no line feed follows; `Header` if the
/// first line doesn't name a version and one of its sizes; `BadRecord` if a later line is neither a segment nor the
/// last line, or a byte follows the last line; `Range` if a segment or the entry doesn't lie in core storage of the
/// image's size. Never `Memory`.
pub fn lend_image(text: &[u8]) -> Result<LentImage<'_>, ImageFault>
    // What is lent is the image whose text this is.
    ensures found { IfOk result (IsTextOf text.now) }

    // An image's text is lent as the image.
    ensures again { (image : Image) → IsTextOf text.now image → IsOrMemory result image }
    ensures versions { IfOk result HasTexts }

    // Any other text is refused for its first wrong line, and none for memory.
    ensures fault { IfErr result (IsRefused text.now) }
    ensures own { IfErr result IsOfText }
{
    image(text)
}

/// Keeps an image that is lent.
fn keep(alloc: Global, lent: &LentImage<'_>) -> Result<Image, ImageFault>
    ensures ok { IfOk result (λ image. image ≡ lent.now) }
    ensures err { IfErr result (λ why. why ≡ ImageFault.Memory) }
{
    let segments = kept_segments(alloc, lent)?;
    Ok(Image {
        size: lent.size(),
        segments: Segments::from_vec(segments),
        start: lent.start(),
    })
}

/// The segments of an image that is lent.
fn kept_segments(alloc: Global, lent: &LentImage<'_>) -> Result<Vec<Segment>, ImageFault>
    ensures ok { IfOk result (λ segments. segments.items ≡ lent.now.segments) }
    ensures err { IfErr result (λ why. why ≡ ImageFault.Memory) }
{
    let mut segments = Vec::new(alloc);
    let mut rest = lent.again();
    while let Some((segment, beyond)) = rest.split_first() {
        if segments.push(segment).is_err() {
            return Err(ImageFault::Memory);
        }
        rest = beyond;
    }
    Ok(segments)
}

impl<'a> LentImage<'a> {
    /// How many places the core storage has.
    pub fn size(&self) -> u16
        ensures { result ≡ self.now.size }
    {
        self.size
    }

    /// The entry: the address of the first instruction.
    pub fn start(&self) -> u16
        ensures { result ≡ self.now.start }
    {
        self.start
    }

    /// The same image, lent once more.
    pub fn again(&self) -> LentImage<'a>
        ensures { result ≡ self.now }
    {
        LentImage {
            version: self.version,
            size: self.size,
            start: self.start,
            rest: self.rest,
        }
    }

    /// The first segment, and the image of those after it; `None` if there is no segment.
    pub fn split_first(&self) -> Option<(Segment, LentImage<'a>)>
        ensures first { MatchOption result (self.now.segments ≡ []) (λ found.
            self.now.segments ≡ found.0 ∷ found.1.segments) }
        ensures same { IfSome result (λ found. (found.1.size ≡ self.now.size) × (found.1.start ≡ self.now.start)) }
    {
        let Some((line, beyond)) = split_line(self.rest) else {
            return None;
        };
        let Some(spelled) = segment(self.version, line) else {
            return None;
        };
        let Ok(segment) = segment_inside(self.size, &spelled) else {
            return None;
        };
        let rest = LentImage {
            version: self.version,
            size: self.size,
            start: self.start,
            rest: beyond,
        };
        Some((segment, rest))
    }
}

/// A segment as its line spells it, wherever it lies.
#[derive(Clone, Copy)]
struct Spelled {
    address: u32,
    cells: Cells,
}

/// The image of a text, or the fault of its first wrong line.
#[tactic(auto, unfolding(crate::specs::Reading::image_in))]
fn image(text: &[u8]) -> Result<LentImage<'_>, ImageFault>
    ensures whole { Gives result (image_in (parts_of text.now)) }
    ensures own { IfErr result IsOfText }
{
    let Some((line, beyond)) = split_line(text) else {
        return Err(ImageFault::Truncated);
    };
    let Some((version, size)) = header(line) else {
        return Err(ImageFault::Header);
    };
    contents(version, size, beyond)
}

/// The image of a size whose segments and entry a text spells.
fn contents(version: Version, size: u16, rest: &[u8]) -> Result<LentImage<'_>, ImageFault>
    ensures whole { Gives result (image_of size (contents_in version size (parts_of rest.now))) }
    ensures own { IfErr result IsOfText }
{
    let start = entry_beyond(version, size, rest)?;
    Ok(LentImage {
        version,
        size,
        start,
        rest,
    })
}

/// The entry that a text spells after good segments of an image of this size.
fn entry_beyond(version: Version, size: u16, text: &[u8]) -> Result<u16, ImageFault>
    ensures value { result ≡ entry_read (contents_in version size (parts_of text.now)) }
    ensures own { IfErr result IsOfText }
{
    let mut rest = text;
    while let Some((line, beyond)) = split_line(rest) {
        let Some(spelled) = segment(version, line) else {
            return last_entry(size, entry(version, line), beyond);
        };
        if segment_inside(size, &spelled).is_err() {
            return Err(ImageFault::Range);
        }
        rest = beyond;
    }
    Err(ImageFault::Truncated)
}

/// A segment that lies in core storage of this size.
fn segment_inside(size: u16, spelled: &Spelled) -> Result<Segment, ImageFault>
    ensures { result ≡ inside_of size (as_segment spelled.now) }
{
    let cells = spelled.cells;
    let end = u64::from(spelled.address) + cells.as_slice().len() as u64;
    if end > u64::from(size) {
        return Err(ImageFault::Range);
    }
    Ok(Segment {
        address: spelled.address as u16,
        cells,
    })
}

/// The entry that a line names; it must be in core storage of this size, with nothing after its line.
fn last_entry(size: u16, entry: Option<u32>, beyond: &[u8]) -> Result<u16, ImageFault>
    ensures value { result ≡ entry_by size entry (parts_of beyond.now) }
    ensures fault { IfErr result IsOfText }
{
    let Some(start) = entry else {
        return Err(ImageFault::BadRecord);
    };
    if start >= u32::from(size) {
        return Err(ImageFault::Range);
    }
    if !beyond.is_empty() {
        return Err(ImageFault::BadRecord);
    }
    Ok(start as u16)
}

/// The first line of a text, and what follows its line feed; `None` if there is no line feed.
fn split_line(text: &[u8]) -> Option<(&[u8], &[u8])>
    ensures { MatchOption result (parts_of text.now ≡ text.now ∷ []) (λ first.
        (parts_of text.now ≡ first.0.now ∷ parts_of first.1.now) × (length first.1.now < length text.now)) }
{
    let end = line_feed_in(text)?;
    Some((&text[..end], &text[end + 1..]))
}

/// The place of the first line feed, if there is one.
fn line_feed_in(text: &[u8]) -> Option<usize>
    ensures { result ≡ position (λ byte. byte == 10) text.now }
{
    text.iter().position(|byte| *byte == b'\n')
}

/// The version and the size that a header names.
#[tactic(auto, unfolding(crate::specs::Reading::header_in))]
fn header(line: &[u8]) -> Option<(Version, u16)>
    ensures { result ≡ header_in line.now }
{
    header_of(Version::One, line).or_else(|| header_of(Version::Two, line))
}

/// A header of this version, with the size that it names.
fn header_of(version: Version, line: &[u8]) -> Option<(Version, u16)>
    ensures { result ≡ in_version version (header_with version line.now) }
{
    Some((version, header_with(version, line)?))
}

/// The size that a header of this version names.
#[tactic(auto, unfolding(crate::specs::Reading::header_with))]
fn header_with(version: Version, line: &[u8]) -> Option<u16>
    ensures { result ≡ header_with version line.now }
{
    let text = line.strip_prefix(version.name())?;
    let (number, rest) = split_number(text, version.address_digits())?;
    if rest.is_empty() {
        version.size(number)
    } else {
        None
    }
}

/// What a segment's line spells, if the line is one.
#[tactic(auto, unfolding(crate::specs::Reading::segment_in))]
fn segment(version: Version, line: &[u8]) -> Option<Spelled>
    ensures { segment_in version line.now ≡ option_map as_segment result }
{
    let (address, text) = split_number(line, version.address_digits())?;
    let text = text.strip_prefix(b" ")?;
    let (count, text) = split_number(text, COUNT_DIGITS)?;
    let cells = read_cells(text.strip_prefix(b" ")?).ok()?;
    if cells.as_slice().len() as u32 == count {
        Some(Spelled { address, cells })
    } else {
        None
    }
}

/// The entry, if the line is the last one.
#[tactic(auto, unfolding(crate::specs::Reading::end_in))]
fn entry(version: Version, line: &[u8]) -> Option<u32>
    ensures { result ≡ end_in version line.now }
{
    let text = line.strip_prefix(b"END ")?;
    let (start, rest) = split_number(text, version.address_digits())?;
    if rest.is_empty() { Some(start) } else { None }
}

/// The number of this many digits at the beginning of a text, and what follows it.
#[tactic(auto, unfolding(crate::specs::Reading::number_at))]
fn split_number(text: &[u8], digits: u8) -> Option<(u32, &[u8])>
    requires { digits ≤ 5 }
    ensures { MatchOption result (number_at digits text.now ≡ None) (λ first.
        number_at digits text.now ≡ Some (first.0, first.1.now)) }
{
    let digits = usize::from(digits);
    if text.len() < digits {
        return None;
    }
    let (digits, rest) = text.split_at(digits);
    Some((read_digits(digits)?, rest))
}
