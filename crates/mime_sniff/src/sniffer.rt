//! First bytes that come in pieces.
ghost use Rattle.std.specs.Prelude.{◌≡◌, ◌≤◌, ◌++◌, ℕ, IsTrue, List, [], length, take};
ghost use Rattle.std.specs.Bool.{OnTrue};
ghost use Rattle.mime_sniff.specs.Computed.{AsksNothing, IsComputed, supply_of, told_by};
ghost use Rattle.mime_sniff.specs.Growth.{IsDecided};
ghost use Rattle.mime_sniff.specs.Standard.{header};
ghost use Rattle.mime_sniff.specs.declared.computed.TheConstants.{HEADER_LENGTH};

use crate::computed::{Computed, HEADER_LENGTH, compute, is_decided};
use crate::supplied::Supplied;
use std::marker::Model;

/// The first 1445 bytes of a resource, kept by value: it takes no memory beside.
///
/// A contract sees it as the list of the bytes that are kept.
///
/// ```
/// let mut sniffer = mime_sniff::Sniffer::new();
/// sniffer.push(b"GIF");
/// sniffer.push(b"89a");
/// assert_eq!(rt; sniffer.kept(), b"GIF89a".as_slice());
/// ```
#[derive(Drop)]
pub struct Sniffer {
    bytes: [u8; HEADER_LENGTH],
    len: usize,
}

impl Model for Sniffer {
    ghost Value = { List ℕ };

    ghost view = { λ s. take s.len s.bytes };

    ghost invariant = { λ s. s.len ≤ HEADER_LENGTH };
}

impl Sniffer {
    /// It keeps no byte yet.
    pub fn new() -> Sniffer
        ensures { result ≡ [] }
    {
        Sniffer {
            bytes: [0; HEADER_LENGTH],
            len: 0,
        }
    }

    /// Adds a piece after the bytes so far, of which the first 1445 are kept.
    pub fn push(&mut self, piece: &[u8])
        ensures { self.new ≡ header (self.old ++ piece.now) }
    {
        let start = self.len;
        let count = (HEADER_LENGTH - start).min(piece.len());
        self.bytes[start..start + count].copy_from_slice(&piece[..count]);
        self.len = start + count;
    }

    /// The first 1445 bytes of all that was pushed, or all if these are fewer.
    pub fn kept(&self) -> &[u8]
        ensures all { result.now ≡ self.now }
        ensures few { length result.now ≤ HEADER_LENGTH }
    {
        &self.bytes[..self.len]
    }

    /// The computed type of what was pushed.
    pub fn compute(&self, supplied: &Supplied<'_>) -> Computed
        ensures { IsComputed (supply_of supplied.now) self.now (told_by result) }
    {
        compute(supplied, self.kept())
    }

    /// Whether no further pieces change it. A yes is right; a no may be too careful, as that of
    /// [`is_decided`](crate::is_decided).
    pub fn is_decided(&self, supplied: &Supplied<'_>) -> bool
        ensures right { OnTrue result (IsDecided (supply_of supplied.now) self.now) }
        ensures full { HEADER_LENGTH ≤ length self.now → IsTrue result }
        ensures unasked { AsksNothing (supply_of supplied.now) → IsTrue result }
    {
        is_decided(supplied, self.kept())
    }
}
