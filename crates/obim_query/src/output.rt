//! Standard output, which notes why a write failed.

use std::io::{self, ErrorKind, Write};

/// A writer that notes why it failed.
#[derive(Drop)]
pub(crate) struct Output<W> {
    pub(crate) inner: W,
    /// True if the other end of the pipe is closed, as `head` closes it.
    pub(crate) has_no_reader: bool,
    pub(crate) failure: Option<io::Error>,
}

impl<W> Output<W> {
    pub(crate) fn new(inner: W) -> Output<W> {
        Output {
            inner,
            has_no_reader: false,
            failure: None,
        }
    }
}

impl<W: Write> Write for Output<W> {
    ghost contents = { λ output. W.contents output.inner };

    fn write(&mut self, bytes: &[u8]) -> io::Result<usize> {
        let written = self.inner.write(bytes);
        if let Err(error) = &written {
            self.has_no_reader = error.kind() == ErrorKind::BrokenPipe;
            self.failure = Some(*error);
        }
        written
    }

    fn flush(&mut self) -> io::Result<()> {
        let flushed = self.inner.flush();
        if let Err(error) = &flushed {
            self.failure = Some(*error);
        }
        flushed
    }
}
