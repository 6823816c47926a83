//! Bytes as they come.
ghost use Rattle.std.specs.Prelude.{◌≡◌, ◌↔◌, ◌-◌, ◌≤◌, ℕ, List, [], ◌++◌, IfOk, IsTrue, length, map, vec_capacity, vec_len};
ghost use Rattle.std.specs.Bool.{OnFalse};
ghost use Rattle.std.specs.List.{concat};
ghost use Rattle.infer.specs.Buffer.{head};
ghost use Rattle.infer.specs.Decided.{IsDecided};
ghost use Rattle.infer_sniff.specs.Sniffers.{IsSniffer};
ghost use Rattle.infer_sniff.specs.Verdicts.{IsVerdict, StaysFinal};

use crate::verdict::{Verdict, verdict_after, verdict_of};
use infer::FRONT;
use std::alloc::{AllocError, Allocator, Global};
use std::cmp;
use std::marker::Model;

/// The first 8192 bytes of an input, and their verdict.
///
/// A contract sees it as the list of the bytes that are kept.
#[derive(Drop)]
pub struct Sniffer<A: Allocator = Global> {
    bytes: Vec<u8, A>,
    verdict: Verdict,
}

impl<A: Allocator> Model for Sniffer<A> {
    ghost Value = { List ℕ };

    ghost view = { λ s. s.bytes.items };

    ghost invariant = { λ s. IsSniffer (vec_capacity s.bytes) s.bytes.items s.verdict };
}

impl<A: Allocator> Sniffer<A> {
    /// Reserves 8192 bytes, which the sniffer keeps. An error means that memory was refused.
    pub fn new(alloc: A) -> Result<Sniffer<A>, AllocError>
        ensures { IfOk result (λ sniffer. sniffer ≡ []) }
    {
        Ok(Sniffer {
            bytes: Vec::with_capacity(alloc, FRONT)?,
            verdict: verdict_of(&[]),
        })
    }

    /// Adds a piece after the bytes so far, of which the first 8192 are kept, and answers the verdict of these.
    ///
    /// It takes no memory and cannot refuse. It costs a copy of what is kept of the piece and, as long as the verdict is
    /// not final, one `get` of all that is kept.
    ///
    /// ```
    /// let mut sniffer = Sniffer::new(rt.alloc())?;
    /// let verdict = sniffer.push(b"\x89PNG");
    /// assert!(rt; matches!(verdict, Verdict::SoFar(Some(_))));
    /// ```
    pub fn push(&mut self, piece: &[u8]) -> Verdict
        ensures kept { self.new ≡ head FRONT (self.old ++ piece.now) }
        ensures grows { (added : List ℕ) × (self.new ≡ self.old ++ added) }
        ensures room { FRONT - length self.new ≡ FRONT - length self.old - length piece.now }
        ensures verdict { IsVerdict self.new result }
        ensures lasts { StaysFinal self.new result }
    {
        if !keep(&mut self.bytes, piece) {
            return self.verdict;
        }
        self.verdict = verdict_after(self.verdict, self.bytes.as_slice());
        self.verdict
    }

    /// Pushes the pieces in order, and answers the last verdict, or the present one if there are none.
    pub fn push_all(&mut self, pieces: &[&[u8]]) -> Verdict
        ensures kept { self.new ≡ head FRONT
            (self.old ++ concat (map (λ piece. piece.now) pieces.now)) }
        ensures grows { (added : List ℕ) × (self.new ≡ self.old ++ added) }
        ensures verdict { IsVerdict self.new result }
        ensures lasts { StaysFinal self.new result }
    {
        let mut verdict = self.verdict;
        for piece in pieces {
            verdict = self.push(piece);
        }
        verdict
    }

    /// The verdict of the bytes that are kept.
    pub fn verdict(&self) -> Verdict
        ensures verdict { IsVerdict self.now result }
        ensures lasts { StaysFinal self.now result }
    {
        self.verdict
    }

    /// Whether no bytes after those that are kept change their answer, exactly. It asks the rows anew.
    pub fn is_decided(&self) -> bool
        ensures { IsTrue result ↔ IsDecided self.now }
    {
        infer::is_decided(self.kept())
    }

    /// The first 8192 bytes of all that was pushed, or all if these are fewer.
    pub fn kept(&self) -> &[u8]
        ensures bytes { result.now ≡ self.now }
        ensures few { length result.now ≤ FRONT }
    {
        self.bytes.as_slice()
    }
}

/// Adds as much of the piece as there is room for, and answers whether that was any.
fn keep<A: Allocator>(bytes: &mut Vec<u8, A>, piece: &[u8]) -> bool
    requires room { FRONT ≤ vec_capacity bytes.old }
    requires few { vec_len bytes.old ≤ FRONT }
    ensures front { bytes.new.items ≡ head FRONT (bytes.old.items ++ piece.now) }
    ensures grows { (added : List ℕ) × (bytes.new.items ≡ bytes.old.items ++ added) }
    ensures room { FRONT ≤ vec_capacity bytes.new }
    ensures none { OnFalse result (bytes.new.items ≡ bytes.old.items) }
{
    let count = cmp::min(piece.len(), FRONT - bytes.len());
    if count == 0 {
        return false;
    }
    // The room is there, so this takes no memory.
    let _ = bytes.extend_from_slice(&piece[..count]);
    true
}
