//! A reader and a writer that are slow, are interrupted, and fail in mid-stream.

use std::alloc::Global;
use std::io::{Error, ErrorKind, Read, Result as IoResult, Write};

/// Gives a byte at every second call, interrupts the calls between, and fails at its end.
#[derive(Drop)]
pub struct Failing {
    bytes: &'static [u8],
    interrupts: bool,
}

impl Failing {
    pub fn new(bytes: &'static [u8]) -> Failing {
        Failing {
            bytes,
            interrupts: false,
        }
    }
}

impl Read for Failing {
    fn read(&mut self, buf: &mut [u8]) -> IoResult<usize> {
        self.interrupts = !self.interrupts;
        if self.interrupts {
            return Err(Error::from(ErrorKind::Interrupted));
        }
        if self.bytes.is_empty() {
            return Err(Error::from(ErrorKind::ConnectionReset));
        }
        let count = buf.len().min(self.bytes.len()).min(1);
        buf[..count].copy_from_slice(&self.bytes[..count]);
        self.bytes = &self.bytes[count..];
        Ok(count)
    }
}

/// Takes two bytes at a time at every second call, interrupts the calls between, and is closed after `room` bytes.
#[derive(Drop)]
pub struct Closing {
    taken: Vec<u8>,
    room: usize,
    interrupts: bool,
}

impl Closing {
    pub fn new(alloc: Global, room: usize) -> Closing {
        Closing {
            taken: Vec::new(alloc),
            room,
            interrupts: false,
        }
    }

    pub fn taken(&self) -> &[u8] {
        &self.taken
    }
}

impl Write for Closing {
    fn write(&mut self, buf: &[u8]) -> IoResult<usize> {
        self.interrupts = !self.interrupts;
        if self.interrupts {
            return Err(Error::from(ErrorKind::Interrupted));
        }
        let count = buf.len().min(2).min(self.room);
        self.room -= count;
        self.taken.extend_from_slice(&buf[..count])?;
        Ok(count)
    }

    fn flush(&mut self) -> IoResult<()> {
        Ok(())
    }
}
