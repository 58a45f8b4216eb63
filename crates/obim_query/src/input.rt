//! Standard input, which notes why a read failed.

use std::io::{self, Read};

/// The bytes of the stack between the process's start and what `main` calls.
const STACK_GAP_BYTES: usize = 1 << 14;

/// A reader that notes why it failed.
#[derive(Drop)]
pub(crate) struct Input<R> {
    pub(crate) inner: R,
    pub(crate) failure: Option<io::Error>,
    /// Nobody reads this. It keeps what `main` calls away from the stack of the process's start. There glibc 2.36, at
    /// the first allocation, reads the setting of large pages into memory that it doesn't clear. It would take other
    /// bytes for a setting.
    _apart: [u8; STACK_GAP_BYTES],
}

impl<R> Input<R> {
    pub(crate) fn new(inner: R) -> Input<R> {
        Input {
            inner,
            failure: None,
            _apart: [0; STACK_GAP_BYTES],
        }
    }
}

impl<R: Read> Read for Input<R> {
    ghost remaining = { λ input. R.remaining input.inner };

    fn read(&mut self, buffer: &mut [u8]) -> io::Result<usize> {
        let read = self.inner.read(buffer);
        if let Err(error) = &read {
            self.failure = Some(*error);
        }
        read
    }
}
