//! A reader that gives few bytes at a time.

ghost use Rattle.std.specs.Prelude.{◌≡◌, Some};

use std::io::{self, ErrorKind, Read};

/// A reader of a text, each of whose reads gives at most so many bytes. One read may be interrupted.
#[derive(Drop)]
pub struct SlowReader<'a> {
    rest: &'a [u8],
    most: usize,
    reads_before: Option<usize>,
}

impl<'a> SlowReader<'a> {
    /// Each read gives at most `most` bytes, and one at least where bytes are left. After `reads_before` reads the
    /// next one is interrupted, if any is to be.
    pub fn new(text: &'a [u8], most: usize, reads_before: Option<usize>) -> SlowReader<'a> {
        SlowReader {
            rest: text,
            most: most.max(1),
            reads_before,
        }
    }

    /// Whether this read is interrupted.
    fn is_interrupted(&mut self) -> bool
        ensures { self.new.rest ≡ self.old.rest }
    {
        match self.reads_before {
            Some(0) => {
                self.reads_before = None;
                true
            }
            Some(reads) => {
                self.reads_before = Some(reads - 1);
                false
            }
            None => false,
        }
    }
}

impl<'a> Read for SlowReader<'a> {
    ghost remaining = { λ r. Some r.rest.now };

    fn read(&mut self, buf: &mut [u8]) -> io::Result<usize> {
        if self.is_interrupted() {
            return Err(io::Error::from(ErrorKind::Interrupted));
        }
        let (part, _) = buf.split_at_mut(self.most.max(1).min(buf.len()));
        self.rest.read(part)
    }
}
