//! The type of what a reader gives, of which no more is read than it takes to identify it.
ghost use Rattle.std.specs.Prelude.{◌≡◌, ◌≤◌, ℕ, List, None, IfOk, IfSome, IsErrOf, OnErr, OnOk, length};
ghost use Rattle.std.specs.Io.KnownBytes.{Consumes};
ghost use Rattle.infer.specs.Buffer.{IsBuffer, head};
ghost use Rattle.infer.specs.Fault.{OpensNothing, read_fault};
ghost use Rattle.infer.specs.Watched.{IsDue, Loses, fault_of, inner};
ghost use Rattle.infer_sniff.specs.Verdicts.{IsSettled, IsTypeOf, IsVerdict, StaysFinal};

use crate::verdict::{Verdict, verdict_of};
use infer::{Enough, FRONT, Fault, Type, Watched, read_until};
use std::alloc::Allocator;
use std::io::Read;

/// How many bytes are read at once: no verdict is final before.
const PIECE: usize = 1024;

/// Bytes are enough if their verdict is final. It is kept, so that the rows are not asked again.
#[derive(Drop)]
struct Latest(Verdict);

impl Enough for Latest {
    ghost suffices = { λ _ bytes. IsSettled bytes };

    ghost keeps = { λ self bytes. IsVerdict bytes self.0 × StaysFinal bytes self.0 };

    fn is_enough(&mut self, bytes: &[u8]) -> bool {
        self.0 = verdict_of(bytes);
        self.0.is_final()
    }
}

/// The type of the first 8192 bytes of a reader, or of all if it has fewer. It reads 1024 bytes at a time, and no
/// read follows one after which the verdict is final.
///
/// It reserves 8192 bytes first. `Memory` means that these were refused and nothing was read, `Read` that a read
/// failed; it is never `Open`.
pub fn label<A: Allocator, R: Read>(
    alloc: A,
    reader: &mut Watched<R>,
) -> Result<Option<Type>, Fault>
    requires { fault_of reader.old ≡ None }
    ensures answer { IfOk result (λ found. IfSome (R.remaining (inner reader.old))
        (λ s. IsTypeOf (head FRONT s) found)) }
    ensures some_bytes { IfOk result (λ found. (b : List ℕ) × IsBuffer b × (length b ≤ FRONT)
        × IsTypeOf b found) }

    // After a final verdict nothing is read: what was lost but for the last piece had none.
    ensures no_further { OnOk result ((b : List ℕ)
        × Consumes (R.remaining (inner reader.old)) (R.remaining (inner reader.new)) b
        × IsDue PIECE IsSettled b) }
    ensures fault { fault_of reader.new ≡ read_fault result }
    ensures memory { IsErrOf result Fault.Memory → reader.new ≡ reader.old }
    ensures opens_nothing { OpensNothing result }
    ensures lost { OnErr result (Loses FRONT (R.remaining (inner reader.old))
        (R.remaining (inner reader.new))) }
{
    let mut latest = Latest(Verdict::SoFar(None));
    read_until(alloc, reader, FRONT, PIECE, &mut latest)?;
    Ok(latest.0.found())
}
