//! The image of a source whose lines have no fault, once all of it is placed, or the first of which something isn't in
//! core.
//!
//! ```text
//! let all = place_all(alloc, hashing, &chains, lines)?;       // by `autocoder_placing`
//! check_places(alloc, &all, lines, 4_000)?                    // all of the lines is in core storage of this size
//! make_image(alloc, &all, lines, 4_000)?                      // the segments, and the place where the program starts
//! let packed = pack_image(alloc, &all, lines, 4_000)?;        // the same in few bytes, however often areas are placed
//! packed.segments().split_first()                             // a segment after the other
//! write_packed(ReadyImage::reserve(alloc, packed)?, &mut writer)?     // its text, a page after the other
//! ```
//!
//! The listing of the same lines is made by `autocoder_listing`.
#![tactic(auto)]

pub mod checked_places; // whether all is in core
mod packed_cells; // cells in few bytes
mod source_packing; // the cells of lines, packed, up to the first that isn't in core
mod cells_left; // packed cells, one after the other
pub mod segments_left; // their segments, one after the other
pub mod packed_image; // packed cells with the size and the entry
pub mod placed_image; // the image with its segments
mod image_pages; // the lines of an image's text, in a page
pub mod ready_image; // the text of a packed image, written a page after the other

pub use checked_places::check_places;
pub use packed_image::{PackedImage, pack_image};
pub use placed_image::make_image;
pub use ready_image::{ReadyImage, write_packed};
pub use segments_left::SegmentsLeft;
