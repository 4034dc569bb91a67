//! How large a file may become.

use std::fs::OpenFile;
use std::io;
use std::io::{ErrorKind, Write};

/// What `getrlimit` is asked for the most bytes that a file may have.
const RLIMIT_FSIZE: i32 = 1;

/// The most bytes that this process may have in a file. Whoever writes beyond that is ended by a signal, which can't be
/// ignored from here.
pub fn size_limit() -> u64 {
    let mut limit = libc::types::rlimit {
        rlim_cur: u64::MAX,
        rlim_max: u64::MAX,
    };
    if libc::getrlimit(RLIMIT_FSIZE, &mut limit) == 0 {
        limit.rlim_cur
    } else {
        u64::MAX
    }
}

/// A new file that is written up to the limit, and whose next write fails; the limit isn't one for a device or a pipe.
#[derive(Drop)]
pub struct LimitedFile<F> {
    file: F,
    // How many bytes more it may have.
    left: u64,
}

impl<F: OpenFile> LimitedFile<F> {
    /// A file without a byte.
    pub(crate) fn new(file: F) -> LimitedFile<F> {
        let left = match file.metadata() {
            Ok(metadata) if !metadata.is_file() => u64::MAX,
            _ => size_limit(),
        };
        LimitedFile { file, left }
    }

    /// Forces it onto the disk.
    pub(crate) fn sync_all(&self) -> io::Result<()> {
        self.file.sync_all()
    }
}

impl<F: Write> Write for LimitedFile<F> {
    fn write(&mut self, buf: &[u8]) -> io::Result<usize> {
        let left = usize::try_from(self.left).unwrap_or(usize::MAX);
        if left == 0 {
            return Err(ErrorKind::FileTooLarge.into());
        }
        let written = self.file.write(&buf[..buf.len().min(left)])?;
        self.left = self.left.saturating_sub(written as u64);
        Ok(written)
    }

    fn flush(&mut self) -> io::Result<()> {
        self.file.flush()
    }
}
