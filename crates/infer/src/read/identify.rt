//! Calls that read the front of an input and answer about it, whatever they are asked.
ghost use Rattle.std.specs.Prelude.{◌≡◌, ◌≤◌, ℕ, List, IfOk, IsErrOf, None, length};
ghost use Rattle.infer.specs.Reading.{IdentifiesOpened, IdentifiesReader, IdentifiesSome};
ghost use Rattle.infer.specs.Watched.{fault_of};

use crate::read::fault::Fault;
use crate::read::head::{lengthen, make_room, read_head};
use crate::read::watched::Watched;
use std::alloc::Allocator;
use std::fs::File;
use std::io;
use std::io::Read;
use std::rt::Files;

/// A question about the first bytes of an input.
pub trait Identify {
    type Answer;

    // The answer to bytes.
    ghost identifies: { Self → List ℕ → Self.Answer → Type 0 };

    /// The answer to these bytes.
    fn identify(&self, bytes: &[u8]) -> Self::Answer
        ensures { identifies self.now bytes.now result };
}

/// The answer about as many first bytes of a reader as there are in `room`, into which it reads, or about all if it has fewer.
pub fn identify_reader_in<Q: Identify, R: Read>(
    question: &Q,
    room: &mut [u8],
    r: &mut Watched<R>,
) -> Result<Q::Answer, Fault>
    requires { fault_of r.old ≡ None }
    ensures answer { IdentifiesReader R.remaining (length room.new) (Q.identifies question.now)
        r.old r.new result }
    ensures no_memory { ¬ IsErrOf result Fault.Memory }
{
    match read_head(r, room) {
        Ok(count) => Ok(question.identify(&room[..count])),
        Err(kind) => Err(Fault::Read(kind)),
    }
}

/// The answer about the first `n` bytes of a reader, or about all if it has fewer. It reserves `n` bytes first.
pub fn identify_reader<Q: Identify, A: Allocator, R: Read>(
    question: &Q,
    alloc: A,
    r: &mut Watched<R>,
    n: usize,
) -> Result<Q::Answer, Fault>
    requires no_fault { fault_of r.old ≡ None }
    requires least { 1 ≤ n }
    ensures { IdentifiesReader R.remaining n (Q.identifies question.now) r.old r.new result }
{
    let mut room = make_room(alloc, n)?;
    identify_reader_in(question, room.as_mut_slice(), r)
}

/// The answer about the first `n` bytes of what is opened already, or the error that opening gave, which is `Open` then. It
/// reads into `room`, which is made `n` bytes long if it is shorter, so that one room serves many files.
pub fn identify_opened<Q: Identify, A: Allocator, R: Read>(
    question: &Q,
    room: &mut Vec<u8, A>,
    opened: &mut io::Result<Watched<R>>,
    n: usize,
) -> Result<Q::Answer, Fault>
    requires { IfOk opened.old (λ r. fault_of r ≡ None) }
    ensures { IdentifiesOpened R.remaining n (Q.identifies question.now)
        opened.old opened.new result }
{
    match opened {
        Ok(r) => {
            lengthen(room, n)?;
            identify_reader_in(question, &mut room.as_mut_slice()[..n], r)
        }
        Err(error) => Err(Fault::Open(error.kind())),
    }
}

/// The answer about the first `n` bytes of a file, or about all if it has fewer. It opens the file, reserves `n` bytes and
/// reads, in this order.
pub fn identify_path<Q: Identify, R: Files, A: Allocator>(
    question: &Q,
    rt: &R,
    alloc: A,
    path: &str,
    n: usize,
) -> Result<Q::Answer, Fault>
    ensures { IdentifiesSome n (Q.identifies question.now) result }
{
    let mut opened = File::open(rt, path).map(Watched::new);
    identify_opened(question, &mut Vec::new(alloc), &mut opened, n)
}
