//! The listing of a source, made line by line once all labels have their values.
ghost use Rattle.std.specs.Prelude.{◌≡◌, ◌∷◌, ◌++◌, ◌+◌, ◌<◌, ◌^◌, [], length, IfOk, IfErr, OnOk};
ghost use Rattle.autocoder_statements.specs.SourceLine.{lines_of};
ghost use Rattle.autocoder_symbols.specs.Fault.{IsMemory};
ghost use Rattle.autocoder_placing.specs.Placement.{start_of, placed_after, unplaced};
ghost use Rattle.autocoder_placing.specs.View.{places_of};
ghost use Rattle.autocoder_listing.specs.Listing.{literal_lines, literals_in, line_for, listing_from};

use crate::listing::{Listing, ListingLine, WrittenLine, list_line};
use autocoder_placing::Placing;
use autocoder_statements::split_line;
use autocoder_symbols::{AsmFault, Lines};
use std::alloc::Global;

/// Adds the listing of the lines of a source here, and places them.
fn list_lines<'a>(
    alloc: Global,
    all: &Placing<'a>,
    so_far: &mut Placing<'a>,
    source: &[u8],
    lines: &Lines<'_>,
    listing: &mut Vec<ListingLine>,
) -> Result<(), AsmFault>
    requires as_many { length lines.now ≡ length (lines_of source.now) }
    requires few { length lines.now < 2 ^ 32 }
    ensures listed { OnOk result (listing.new.items ≡ listing.old.items
        ++ listing_from (places_of all.now) (places_of so_far.old) 1 lines.now (lines_of source.now)) }
    ensures err { IfErr result IsMemory }
{
    let mut sources = source;
    for i in 0..lines.len() {
        let line = &lines.line(i);
        let Some((text, beyond)) = split_line(sources) else {
            unreachable!()
        };
        let written = WrittenLine {
            number: i as u64 + 1,
            text,
        };
        list_line(alloc, all, so_far, written, line, &lines.beyond(i), listing)?;
        so_far.place(line)?;
        sources = beyond;
    }
    Ok(())
}

/// The listing of lines, of which this is the source, once all is placed.
///
/// # Errors
///
/// `Memory` if there is no room.
pub fn make_listing(
    alloc: Global,
    all: &Placing<'_>,
    source: &[u8],
    lines: &Lines<'_>,
) -> Result<Listing, AsmFault>
    requires as_many { length lines.now ≡ length (lines_of source.now) }
    requires few { length lines.now < 2 ^ 32 }
    ensures listing { IfOk result (λ listing. listing
        ≡ listing_from (places_of all.now) (unplaced (places_of all.now)) 1 lines.now (lines_of source.now)) }
    ensures err { IfErr result IsMemory }
{
    let mut listing = Vec::new(alloc);
    let mut so_far = all.again(alloc);
    list_lines(alloc, all, &mut so_far, source, lines, &mut listing)?;
    Ok(Listing { lines: listing })
}
