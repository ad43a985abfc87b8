// What is printed goes through a buffer that the caller lends; a full buffer is written out. std's `BufWriter` asks for memory.
use std::fmt;

// The descriptor of standard output: `io::write_all` takes it, and tells whether all went out.
const STDOUT_FILENO: i32 = 1;

#[derive(Drop)]
pub struct Output<'a> {
    buffer: &'a mut [u8],
    // how much of the buffer waits to be written out
    used: usize,
    // a write has failed: nothing goes out any more
    broken: bool,
}

impl<'a> Output<'a> {
    pub fn new(buffer: &'a mut [u8]) -> Self {
        Output {
            buffer,
            used: 0,
            broken: false,
        }
    }

    pub fn is_broken(&self) -> bool {
        self.broken
    }

    // Writes out what waits.
    pub fn flush(&mut self) {
        let waiting = self.used.min(self.buffer.len());
        let written = self.broken || io::write_all(STDOUT_FILENO, &self.buffer[..waiting]);
        self.broken = self.broken || !written;
        self.used = 0;
    }

    fn put(&mut self, byte: u8) {
        if self.buffer.len() <= self.used {
            self.flush();
        }
        if self.used < self.buffer.len() {
            self.buffer[self.used] = byte;
            self.used += 1;
        }
    }
}

impl fmt::Write for Output<'_> {
    // Where output can't be written, what follows is dropped. A text that the buffer has room for goes in whole, any other byte by byte.
    fn write_str(&mut self, text: &str) -> fmt::Result {
        let bytes = text.as_bytes();
        let used = self.used;
        if put_whole(self.buffer, used, bytes) {
            self.used = used.saturating_add(bytes.len());
            return Ok(());
        }
        for byte in bytes {
            self.put(*byte);
        }
        Ok(())
    }
}

// The bytes go into the buffer from a place on, if there is room for all of them.
fn put_whole(buffer: &mut [u8], at: usize, bytes: &[u8]) -> bool {
    if buffer.len() < at {
        return false;
    }
    let free = &mut buffer[at..];
    if free.len() < bytes.len() {
        return false;
    }
    free[..bytes.len()].copy_from_slice(bytes);
    true
}
