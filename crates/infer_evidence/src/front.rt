//! The shortest front of a buffer that decides a claim.
ghost use Rattle.std.specs.Prelude.{◌<◌, ◌≤◌, List, ℕ, IfSome, IsTrue, length, take};

/// How long the first front is that is tried.
const FIRST: usize = 8;

/// What a front of a buffer may decide.
pub trait Claim {
    // The claim holds, whatever bytes follow such a front.
    ghost decides: { Self → List ℕ → Type 0 };

    /// Whether the front decides it.
    fn is_decided_by(&self, front: &[u8]) -> bool
        ensures { IsTrue result → decides self.now front.now };
}

/// The length of a front of the buffer that decides the claim: the first of 8, 16 and so on that does, or of the whole.
fn deciding_front<C: Claim>(claim: &C, buf: &[u8]) -> Option<usize>
    ensures { IfSome result (λ n. (n ≤ length buf.now) × C.decides claim.now (take n buf.now)) }
{
    let mut n = FIRST;
    while n < buf.len() {
        if claim.is_decided_by(&buf[..n]) {
            return Some(n);
        }
        n = n.saturating_mul(2);
    }
    claim.is_decided_by(buf).then_some(buf.len())
}

/// The length of the shortest front that decides the claim, if one of `high` bytes does.
fn shortest<C: Claim>(claim: &C, buf: &[u8], mut high: usize) -> usize
    requires within { high ≤ length buf.now }
    requires decided { C.decides claim.now (take high buf.now) }
    ensures within { result ≤ length buf.now }
    ensures decided { C.decides claim.now (take result buf.now) }
{
    let mut low = 0;
    while low < high {
        let middle = low + (high - low) / 2;
        if claim.is_decided_by(&buf[..middle]) {
            high = middle;
        } else {
            low = middle + 1;
        }
    }
    high
}

/// The length of the shortest front of the buffer that decides the claim, and `None` if none does.
pub fn shortest_front<C: Claim>(claim: &C, buf: &[u8]) -> Option<usize>
    ensures { IfSome result (λ n. (n ≤ length buf.now) × C.decides claim.now (take n buf.now)) }
{
    let high = deciding_front(claim, buf)?;
    Some(shortest(claim, buf, high))
}
