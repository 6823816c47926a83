//! A reader that remembers its first error.
ghost use Rattle.std.specs.Prelude.{◌≡◌, None};
ghost use Rattle.std.specs.Result.{result_err};
ghost use Rattle.std.specs.Io.{ReadsAtMost};
ghost use Rattle.std.specs.Io.KnownBytes.{ReadConsumes};
ghost use Rattle.infer.specs.Watched.{fault_of, inner};

use std::io::{ErrorKind, Read};

/// A reader that remembers its first error.
///
/// Only its own calls see its fields, and this file has no other code. So a fault that it has is from a failed read of
/// the inner reader, and no failed read goes unseen.
#[derive(Drop)]
pub struct Watched<R: Read> {
    reader: R,
    first_error: Option<ErrorKind>,
}

impl<R: Read> Watched<R> {
    /// Watches `reader`, without a fault.
    pub fn new(reader: R) -> Watched<R>
        ensures reader { inner result ≡ reader }
        ensures fault { fault_of result ≡ None }
    {
        Watched {
            reader,
            first_error: None,
        }
    }

    /// One read of the inner reader, which gives what that read gave. An error becomes the fault.
    ///
    /// It may be called as long as there is no fault.
    pub fn read(&mut self, out: &mut [u8]) -> Result<usize, ErrorKind>
        requires { fault_of self.old ≡ None }
        ensures bound { ReadsAtMost result out.new }
        ensures bytes { ReadConsumes (R.remaining (inner self.old))
            (R.remaining (inner self.new)) result out.new }
        ensures fault { fault_of self.new ≡ result_err result }
    {
        match self.reader.read(out) {
            Ok(count) => Ok(count),
            Err(error) => {
                let kind = error.kind();
                self.first_error = Some(kind);
                Err(kind)
            }
        }
    }

    /// The kind of the error that a read gave, and `None` as long as none failed.
    pub fn fault(&self) -> Option<ErrorKind>
        ensures { result ≡ fault_of self.now }
    {
        self.first_error
    }

    /// The inner reader, as the reads left it.
    pub fn into_inner(self) -> R
        ensures { result ≡ inner self }
    {
        self.reader
    }
}
