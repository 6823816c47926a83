//! The front of what a reader gives.
ghost use Rattle.std.specs.Prelude.{◌≡◌, None, ◌<◌, ◌≤◌, ◌↔◌, ◌⊎◌, ℕ, List, IfErr, IfOk, IfSome, IsErrOf, IsTrue, OnErr, OnOk, Some, drop, length, take, vec_len};
ghost use Rattle.std.specs.Result.{result_err};
ghost use Rattle.std.specs.Io.{ReadsAtMost};
ghost use Rattle.std.specs.Io.KnownBytes.{Consumes, IsAtEnd};
ghost use Rattle.infer.specs.Buffer.{IsBuffer, head};
ghost use Rattle.infer.specs.Fault.{OpensNothing, read_fault};
ghost use Rattle.infer.specs.Watched.{IsDue, Loses, fault_of, inner};

use crate::read::fault::Fault;
use crate::read::watched::Watched;
use std::alloc::Allocator;
use std::cmp;
use std::io::{ErrorKind, Read};

/// How many bytes of an input are looked at, if no other number is chosen.
pub const FRONT: usize = 8192;

/// A test by which reading ends before its limit. It may keep what it learnt of the bytes that it was asked about last.
pub trait Enough {
    // The bytes that are enough. It may tell by what it holds, as a number of bytes.
    ghost suffices: { Self → List ℕ → Type 0 };

    // What it keeps of the bytes that it was asked about last.
    ghost keeps: { Self → List ℕ → Type 0 };

    /// Whether these bytes are enough, so that no more are read.
    ///
    /// The question does not change what is enough.
    fn is_enough(&mut self, bytes: &[u8]) -> bool
        ensures enough { IsTrue result ↔ suffices self.old bytes.now }
        ensures same { (b : List ℕ) → suffices self.new b ↔ suffices self.old b }
        ensures kept { keeps self.new bytes.now };
}

/// No bytes are enough before the limit.
#[derive(Drop)]
pub struct Limit;

impl Enough for Limit {
    ghost suffices = { λ _ _. ⊥ };

    ghost keeps = { λ _ _. Unit {0} };

    fn is_enough(&mut self, _bytes: &[u8]) -> bool {
        false
    }
}

/// Memory for `limit` bytes.
pub fn make_room<A: Allocator>(alloc: A, limit: usize) -> Result<Vec<u8, A>, Fault>
    ensures room { IfOk result (λ room. vec_len room ≡ limit) }
    ensures refused { IfErr result (λ fault. fault ≡ Fault.Memory) }
{
    vec![in alloc; 0; limit].map_err(|_| Fault::Memory)
}

/// Makes `room` so many bytes long if it is shorter.
pub fn lengthen<A: Allocator>(room: &mut Vec<u8, A>, limit: usize) -> Result<(), Fault>
    ensures long { OnOk result (limit ≤ vec_len room.new) }
    ensures refused { IfErr result (λ fault. (fault ≡ Fault.Memory) × (0 < limit)) }
{
    if limit <= room.len() {
        return Ok(());
    }
    room.resize(limit, 0).map_err(|_| Fault::Memory)
}

/// Reads at most `piece` bytes at a time until `out` is full, what was read is enough or the reader ends, and answers
/// how many bytes it read.
fn fill<R: Read, E: Enough>(
    reader: &mut Watched<R>,
    out: &mut [u8],
    piece: usize,
    enough: &mut E,
) -> Result<usize, ErrorKind>
    requires no_fault { fault_of reader.old ≡ None }
    requires some { 1 ≤ piece }
    ensures bound { ReadsAtMost result out.new }
    ensures bytes { IfOk result (λ n. Consumes (R.remaining (inner reader.old))
        (R.remaining (inner reader.new)) (take n out.new)) }
    ensures end { IfOk result (λ n. n < length out.new
        → IsAtEnd (R.remaining (inner reader.new)) ⊎ E.suffices enough.old (take n out.new)) }
    ensures due { IfOk result (λ n. IsDue piece (E.suffices enough.old) (take n out.new)) }
    ensures kept { IfOk result (λ n. E.keeps enough.new (take n out.new)) }
    ensures fault { fault_of reader.new ≡ result_err result }
    ensures lost { OnErr result (Loses (length out.new) (R.remaining (inner reader.old))
        (R.remaining (inner reader.new))) }
{
    let mut filled = 0;
    while !enough.is_enough(&out[..filled]) && filled < out.len() {
        let room = cmp::min(piece, out.len() - filled);
        let count = reader.read(&mut out[filled..filled + room])?;
        if count == 0 {
            break;
        }
        filled += count;
    }
    Ok(filled)
}

/// Reads at most `piece` bytes at a time until there are `limit` bytes, those read are enough or the reader ends. It
/// reserves `limit` bytes first, and asks last about all that it read.
pub fn read_until<A: Allocator, R: Read, E: Enough>(
    alloc: A,
    reader: &mut Watched<R>,
    limit: usize,
    piece: usize,
    enough: &mut E,
) -> Result<Vec<u8, A>, Fault>
    requires no_fault { fault_of reader.old ≡ None }
    requires some { 1 ≤ limit }
    requires some_a_read { 1 ≤ piece }
    ensures bytes { IfOk result (λ bytes. IsBuffer bytes.items) }
    ensures few { IfOk result (λ bytes. vec_len bytes ≤ limit) }
    ensures taken { IfOk result (λ bytes. Consumes (R.remaining (inner reader.old))
        (R.remaining (inner reader.new)) bytes.items) }
    ensures end { IfOk result (λ bytes. vec_len bytes < limit
        → IsAtEnd (R.remaining (inner reader.new)) ⊎ E.suffices enough.old bytes.items) }
    ensures due { IfOk result (λ bytes. IsDue piece (E.suffices enough.old) bytes.items) }
    ensures kept { IfOk result (λ bytes. E.keeps enough.new bytes.items) }
    ensures fault { fault_of reader.new ≡ read_fault result }
    ensures memory { IsErrOf result Fault.Memory → reader.new ≡ reader.old }
    ensures opens_nothing { OpensNothing result }
    ensures lost { OnErr result (Loses limit (R.remaining (inner reader.old))
        (R.remaining (inner reader.new))) }
{
    let mut bytes = make_room(alloc, limit)?;
    match fill(reader, bytes.as_mut_slice(), piece, enough) {
        Ok(count) => {
            bytes.truncate(count);
            are_bytes(bytes.as_slice());
            Ok(bytes)
        }
        Err(kind) => Err(Fault::Read(kind)),
    }
}

/// The elements of a slice of bytes are below 256.
fn are_bytes(buf: &[u8])
    ensures { IsBuffer buf.now }
{
    let _ = buf;
}

/// Takes the bytes of the reader that fit into `room`, or all if it has fewer, and answers how many these are.
pub fn read_head<R: Read>(reader: &mut Watched<R>, room: &mut [u8]) -> Result<usize, ErrorKind>
    requires no_fault { fault_of reader.old ≡ None }
    ensures bound { ReadsAtMost result room.new }
    ensures front { IfOk result (λ n. IfSome (R.remaining (inner reader.old))
        (λ s. take n room.new ≡ head (length room.new) s)) }
    ensures rest { OnOk result (IfSome (R.remaining (inner reader.old))
        (λ s. R.remaining (inner reader.new) ≡ Some (drop (length room.new) s))) }
    ensures fault { fault_of reader.new ≡ result_err result }
    ensures lost { OnErr result (Loses (length room.new) (R.remaining (inner reader.old))
        (R.remaining (inner reader.new))) }
{
    fill(reader, room, usize::MAX, &mut Limit)
}
