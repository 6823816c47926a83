//! The room of a caller, into which a line is written.
ghost use Rattle.std.specs.Prelude.{◌≡◌, ◌++◌, ℕ, List, []};
ghost use Rattle.std.specs.Fmt.{decimal};
ghost use Rattle.infer_label.specs.Writes.{Holds, Writes, laid};

/// Room for a text, of which it takes as much as it can hold, and the length of all that was written.
#[derive(Drop)]
pub struct Room<'a> {
    out: &'a mut [u8],
    len: usize,
}

impl<'a> Room<'a> {
    /// Nothing is written yet.
    pub fn new(out: &'a mut [u8]) -> Room<'a>
        ensures holds { Holds out.old result [] }
        ensures same { result.out.ghost_name ≡ out.entry.ghost_name }
    {
        Room { out, len: 0 }
    }

    /// The length of what was written, or the largest number if it is longer.
    pub fn len(&self) -> usize
        ensures { result ≡ self.now.len }
    {
        self.len
    }

    /// Writes bytes.
    pub fn write(&mut self, bytes: &[u8])
        ensures { Writes self.old self.new bytes.now }
    {
        self.lay(bytes);
        self.len = self.len.saturating_add(bytes.len());
    }

    /// Lays bytes into the room, as many as it has room for.
    fn lay(&mut self, bytes: &[u8])
        ensures laid { (start text : List ℕ) → Holds start self.old text → self.new.out.now ≡ laid (text ++ bytes.now) start }
        ensures len { self.new.len ≡ self.old.len }
        ensures same { self.new.out.ghost_name ≡ self.old.out.ghost_name }
    {
        if self.len >= self.out.len() {
            return;
        }
        fill(bytes, &mut self.out[self.len..]);
    }

    /// Writes a text.
    pub fn write_text(&mut self, text: &str)
        ensures { Writes self.old self.new text.now }
    {
        self.write(text.as_bytes());
    }

    /// Writes a number.
    pub fn write_number(&mut self, n: usize)
        ensures { Writes self.old self.new (decimal n) }
    {
        self.write_text(itoa::Buffer::new().format(n));
    }
}

/// Lays bytes into a room, as many as it has room for.
fn fill(bytes: &[u8], room: &mut [u8])
    ensures { room.new ≡ laid bytes.now room.old }
{
    let count = bytes.len().min(room.len());
    room[..count].copy_from_slice(&bytes[..count]);
}
