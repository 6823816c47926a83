//! What the laws of growing input tell of a sniffer.
ghost use Rattle.std.specs.Prelude.{◌≡◌, ◌≤◌, ◌++◌, ℕ, IsTrue, List, length};
ghost use Rattle.infer.specs.Buffer.{IsBuffer, head};
ghost use Rattle.infer_sniff.specs.Verdicts.{IsVerdict, KeepsOpen};
ghost use Rattle.infer.specs.declared.beginnings.Beginning.TheVariants.{Mark};

use infer::{Enough, FRONT};
use infer_sniff::laws::{cuts, decided, needed};
use infer_sniff::{Sniffer, Verdict};
use std::alloc::Allocator;

/// After a final verdict the buffer is decided.
pub fn final_and_decided<A: Allocator>(sniffer: &mut Sniffer<A>, piece: &[u8]) -> (bool, bool)
    ensures { IsTrue result.0 → IsTrue result.1 }
{
    decided();
    let verdict = sniffer.push(piece);
    (verdict.is_final(), sniffer.is_decided())
}

/// Two pushes keep what one push of both pieces joined keeps.
pub fn push_both<A: Allocator>(sniffer: &mut Sniffer<A>, front: &[u8], rest: &[u8]) -> Verdict
    ensures kept { sniffer.new ≡ head FRONT (sniffer.old ++ (front.now ++ rest.now)) }
    ensures verdict { IsVerdict sniffer.new result }
{
    cuts();
    sniffer.push(front);
    sniffer.push(rest)
}

/// Some buffer is kept open by the case of marks alone.
pub fn open_by_a_mark()
    ensures { (b more : List ℕ) × IsBuffer (b ++ more) × KeepsOpen Mark b more }
{
    needed();
}

/// Bytes are enough once there are so many.
#[derive(Drop)]
pub struct AtLeast(pub usize);

impl Enough for AtLeast {
    ghost suffices = { λ self bytes. self.0 ≤ length bytes };

    ghost keeps = { λ _ _. Unit {0} };

    fn is_enough(&mut self, bytes: &[u8]) -> bool {
        self.0 <= bytes.len()
    }
}
