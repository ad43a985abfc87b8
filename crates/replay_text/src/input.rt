// The script, line by line. The buffers are lent and of a fixed size: std's `BufReader` asks for memory.
ghost use Rattle.std.specs.Prelude.{◌≤◌};

use crate::commands::{Command, read_line};
use crate::unexpected::{Expected, Unexpected};
use std::io::Read;

// How many bytes go from the buffer to the line at once, at most.
const PART: usize = 256;

#[derive(Drop)]
pub struct Input<'source, 'buffer, 'line, R> {
    source: &'source mut R,
    // what was read and not yet taken stands here between two places
    buffer: &'buffer mut [u8],
    from: usize,
    to: usize,
    // the line, and how many bytes it has; those past the last place are only counted
    line: &'line mut [u8],
    length: usize,
    // the line has ended
    complete: bool,
    // the input has ended
    ended: bool,
    // the system's number of the failure that ended it, 0 where it gave none
    error: Option<i32>,
}

impl<'source, 'buffer, 'line, R: Read> Input<'source, 'buffer, 'line, R> {
    pub fn new(source: &'source mut R, buffer: &'buffer mut [u8], line: &'line mut [u8]) -> Self {
        Input {
            source,
            buffer,
            from: 0,
            to: 0,
            line,
            length: 0,
            complete: false,
            ended: false,
            error: None,
        }
    }

    pub fn has_ended(&self) -> bool {
        self.ended
    }

    pub fn error(&self) -> Option<i32> {
        self.error
    }

    // Whether the next line begins with bytes that were read already.
    pub fn is_ahead(&self) -> bool {
        self.from < self.to
    }

    // Whether there is a line: what follows the last line end is one only if it has a byte.
    pub fn has_line(&self) -> bool {
        self.complete || 0 < self.length
    }

    // The line without the carriage return at its end; nothing where it is too long.
    fn line(&self) -> Option<&[u8]> {
        let length = self.length;
        let line = self.line.get(..length)?;
        line.strip_suffix(b"\r").or(Some(line))
    }

    // The line's command, if it has one.
    pub fn command(&self, loading: bool) -> Result<Option<Command>, Unexpected> {
        let line = self.line().ok_or(Unexpected::line(Expected::Length))?;
        read_line(line, loading)
    }

    // The next line is read; the last one may have no line end.
    pub fn next_line(&mut self) {
        self.length = 0;
        self.complete = false;
        // A proved loop has to end; no line takes so many reads.
        for _ in 0..u64::MAX {
            if self.complete || self.ended {
                break;
            }
            if self.is_ahead() {
                self.take_part();
            } else {
                self.refill();
            }
        }
    }

    // A part of what the buffer holds, up to a line end. It is copied out first: that one lent field of self is written while another is read, the proof does not cover.
    fn take_part(&mut self) {
        let from = self.from;
        let to = self.to;
        let at = self.length;
        let mut part = [0u8; PART];
        let held = copy_front(&mut part, self.buffer, from, to);
        let end = part[..held]
            .iter()
            .position(|byte| *byte == b'\n')
            .unwrap_or(held);
        put_in_line(self.line, at, &part[..end]);
        self.length = at.saturating_add(end);
        self.complete = end < held;
        // the line end is taken too
        self.from = from
            .saturating_add(end)
            .saturating_add(usize::from(end < held));
    }

    fn refill(&mut self) {
        let read = self.source.read(self.buffer);
        self.from = 0;
        match read {
            Ok(bytes) => self.to = bytes,
            Err(error) => {
                self.to = 0;
                self.error = Some(error.raw_os_error().unwrap_or(0));
            }
        }
        self.ended = self.to == 0;
    }
}

// The bytes between two places go to the front of a part, as many as it takes; how many they are.
fn copy_front(part: &mut [u8; PART], bytes: &[u8], from: usize, to: usize) -> usize
    ensures { result ≤ 256 }
{
    match bytes.get(from..to) {
        None => 0,
        Some(waiting) => {
            let held = waiting.len().min(PART);
            part[..held].copy_from_slice(&waiting[..held]);
            held
        }
    }
}

// Bytes go into a line from a place on; those past its last place are left out.
fn put_in_line(line: &mut [u8], at: usize, bytes: &[u8]) {
    if at < line.len() {
        let free = &mut line[at..];
        let few = free.len().min(bytes.len());
        free[..few].copy_from_slice(&bytes[..few]);
    }
}
