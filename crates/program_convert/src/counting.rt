//! How many records, tape marks and characters there are.
ghost use Rattle.std.specs.Prelude.{◌≡◌, ◌≤◌, length};
ghost use Rattle.machine_tapes.specs.Reel.{characters_in, most_characters};
ghost use Rattle.program_convert.specs.ReelListing.{marks_in};

use machine_tapes::TapeRecords;

/// How many of the records are tape marks.
pub(crate) fn count_marks(records: &TapeRecords<'_>) -> u64
    ensures { result ≡ marks_in records.now }
{
    let mut count: u64 = 0;
    let mut rest = records.again();
    while let Some((first, beyond)) = rest.split_first() {
        if first.is_mark() {
            count += 1;
        }
        rest = beyond;
    }
    count
}

/// How many records there are, tape marks included.
pub(crate) fn count_records(records: &TapeRecords<'_>) -> u64
    ensures { result ≡ length records.now }
{
    let mut count: u64 = 0;
    let mut rest = records.again();
    while let Some((_, beyond)) = rest.split_first() {
        count += 1;
        rest = beyond;
    }
    count
}

/// How many characters they have, tape marks included.
pub(crate) fn count_characters(records: &TapeRecords<'_>) -> u64
    ensures { result ≡ characters_in records.now }
{
    let mut count: u64 = 0;
    let mut rest = records.again();
    while let Some((first, beyond)) = rest.split_first() {
        count += first.len() as u64;
        rest = beyond;
    }
    count
}
