//! What crates of tests share: readers and writers that give and take few bytes at a time, end early, or fail; and
//! texts of messages and pages.
#![tactic(auto)]

mod long_pages;
mod messages;
mod pages;

pub use long_pages::{HEAD_OF_LONG_PAGE, LENGTH_OF_LONG_PAGE, LONG, LONG_NAMES};
use std::io;
use std::io::{Error, ErrorKind, Read, Write};

/// Gives its bytes, at most this many at a time. Then it ends, or it fails.
#[derive(Drop)]
pub struct ShortReader<'a> {
    pub rest: &'a [u8],
    pub at_a_time: usize,
    pub fails: bool,
}

impl Read for ShortReader<'_> {
    fn read(&mut self, buf: &mut [u8]) -> io::Result<usize> {
        if self.rest.is_empty() && self.fails {
            return Err(Error::from(ErrorKind::ConnectionReset));
        }
        let count = buf.len().min(self.at_a_time);
        Read::read(&mut self.rest, &mut buf[..count])
    }
}

/// Takes bytes while it has room, at most this many at a time. Then it takes none, or it fails.
pub struct ShortWriter {
    pub taken: Vec<u8>,
    pub room: usize,
    pub at_a_time: usize,
    pub fails: bool,
}

impl Drop for ShortWriter {
    fn drop(self) {
        let ShortWriter {
            taken: _taken,
            room: _room,
            at_a_time: _at_a_time,
            fails: _fails,
        } = self;
    }
}

impl Write for ShortWriter {
    fn write(&mut self, buf: &[u8]) -> io::Result<usize> {
        if self.room == 0 && self.fails {
            return Err(Error::from(ErrorKind::BrokenPipe));
        }
        let count = buf.len().min(self.room).min(self.at_a_time);
        self.taken.extend_from_slice(&buf[..count])?;
        self.room -= count;
        Ok(count)
    }

    fn flush(&mut self) -> io::Result<()> {
        Ok(())
    }
}
