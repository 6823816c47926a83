//! Which type a file server sends.
ghost use Rattle.infer_uses.specs.Choices.{IsChoice};

use infer::Type;

/// What the type of a file is taken from.
#[derive(Clone, Copy, Debug)]
pub enum Choice {
    /// From the name, which the bytes do not contradict.
    Name,
    /// From the bytes, which contradict the name.
    Bytes(Type),
    /// From the name, since no row accepts the bytes.
    NameAlone,
}

/// The choice for a name's extension and the first bytes. The name is preferred: bytes contradict it only if some row
/// accepts them and none with that extension does.
pub fn choose(extension: &str, front: &[u8]) -> Choice
    ensures { IsChoice extension.now front.now result }
{
    if infer::is(front, extension) {
        return Choice::Name;
    }
    match infer::get(front) {
        Some(found) => Choice::Bytes(found),
        None => Choice::NameAlone,
    }
}
