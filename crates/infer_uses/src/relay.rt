//! A relay, which passes a stream on and identifies its type.
ghost use Rattle.std.specs.Prelude.{ℕ, List, IfOk};
ghost use Rattle.infer_uses.specs.Relays.{IsLabelled, IsPassed};

use infer::{FRONT, Type};
use infer_sniff::Sniffer;
use std::alloc::Allocator;
use std::io::{self, Read, Write};

/// Passes a stream on until its type is certain, it ends or 8192 bytes were seen, and answers the type.
///
/// What was read was written as it came, and the caller passes on the rest. Each piece leaves less room in the sniffer.
pub fn pass<A: Allocator, R: Read, W: Write>(
    alloc: A,
    from: &mut R,
    to: &mut W,
) -> io::Result<Option<Type>>
    ensures { IfOk result (λ found. (bytes : List ℕ)
        × IsPassed (R.remaining from.old) (R.remaining from.new) (W.contents to.old)
        (W.contents to.new) bytes
        × IsLabelled (R.remaining from.new) bytes found) }
{
    let mut sniffer = Sniffer::new(alloc)?;
    let mut piece = [0; 1024];
    while sniffer.kept().len() < FRONT && !sniffer.verdict().is_final() {
        let count = from.read(&mut piece)?;
        if count == 0 {
            break;
        }
        to.write_all(&piece[..count])?;
        sniffer.push(&piece[..count]);
    }
    Ok(sniffer.verdict().found())
}

/// [`pass`] in a loop that counts its turns: each passes a byte on or is the last, so 8192 turns see 8192 bytes.
pub fn pass_by_turns<A: Allocator, R: Read, W: Write>(
    alloc: A,
    from: &mut R,
    to: &mut W,
) -> io::Result<Option<Type>>
    ensures { IfOk result (λ found. (bytes : List ℕ)
        × IsPassed (R.remaining from.old) (R.remaining from.new) (W.contents to.old)
        (W.contents to.new) bytes
        × IsLabelled (R.remaining from.new) bytes found) }
{
    let mut sniffer = Sniffer::new(alloc)?;
    let mut piece = [0; 1024];
    for _ in 0..FRONT {
        let count = from.read(&mut piece)?;
        to.write_all(&piece[..count])?;
        if sniffer.push(&piece[..count]).is_final() || count == 0 {
            break;
        }
    }
    Ok(sniffer.verdict().found())
}
