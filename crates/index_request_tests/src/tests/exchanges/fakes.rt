//! A writer that fails.
use std::io;
use std::io::{Error, ErrorKind, Write};

/// Takes all bytes of this many writes, and then fails.
pub(super) struct FailingWriter {
    pub(super) taken: Vec<u8>,
    pub(super) writes: u64,
}

impl Drop for FailingWriter {
    fn drop(self) {
        let FailingWriter {
            taken: _taken,
            writes: _writes,
        } = self;
    }
}

impl Write for FailingWriter {
    fn write(&mut self, buf: &[u8]) -> io::Result<usize> {
        if self.writes == 0 {
            return Err(Error::from(ErrorKind::BrokenPipe));
        }
        self.taken.extend_from_slice(buf)?;
        self.writes -= 1;
        Ok(buf.len())
    }

    fn flush(&mut self) -> io::Result<()> {
        Ok(())
    }
}
