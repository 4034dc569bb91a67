//! The file of a journal, when another journal takes its place there.
ghost use Rattle.std.specs.Prelude.{◌≡◌, ◌≤◌, false, length, take, IfOk};

use crate::fault::JournalFileFault;
use crate::journal_file::JournalFile;
use crate::new_file::supersede;
use bytes_streams::{Sink, put_all};
use std::fs::File;
use std::rt::Files;

/// How many bytes of two texts are the same, up to the end of a line.
fn common_lines(old: &[u8], new: &[u8]) -> usize
    ensures old { result ≤ length old.now }
    ensures new { result ≤ length new.now }
    ensures same { take result old.now ≡ take result new.now }
{
    let mut common = 0;
    let mut at = 0;
    while at < old.len() && at < new.len() && old[at] == new[at] {
        let is_end = old[at] == b'\n';
        at += 1;
        if is_end {
            common = at;
        }
    }
    common
}

/// Gives the file of a journal, which has this name, the text of another journal. It is cut after the last line that
/// both texts have in common, and the other lines are added by one write. If there is no such line, as where the
/// machines have different sizes, a new file with its rights takes its name; a link to it stays one. So whoever opens the file, at whichever time the program
/// was ended, finds a journal: the old one, the new one, or what they have in common.
///
/// # Errors
///
/// If another process has changed the file, or has given its name to another where a new one takes it; if it can't be
/// read or written; or `Memory`.
pub fn rewrite_journal(
    rt: &(impl Files<File = File> + AllocGlobal),
    name: &str,
    file: JournalFile,
    text: &[u8],
) -> Result<JournalFile, JournalFileFault>
    ensures good { IfOk result (λ made. ⟦<JournalFile as Sink>⟧.has_failed made ≡ false) }
{
    let common = common_lines(file.text(rt.alloc())?.as_slice(), text);
    if common == 0 {
        return supersede(rt, name, file.file(), text, file.durability());
    }
    let mut file = file.cut(common as u64)?;
    if put_all(&mut file, &text[common..]).is_err() || file.has_failed() {
        return Err(JournalFileFault::Unwritten);
    }
    Ok(file)
}
