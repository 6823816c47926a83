//! Facts about the definitions, each the contract of a function that does nothing.
ghost use Rattle.infer_formats.specs.Laws.{Growth, Leads, Single};

/// What a buffer has it has with any bytes after it too: each relation but that it is text, or JSON.
pub fn growth()
    ensures { Growth }
{}

/// With what a buffer begins that has a root element, and that an element starts in it; and the same of JSON and a bracket. And
/// with what bytes at fixed places a buffer that fits a relation.
pub fn leads()
    ensures { Leads }
{
    infer_sig::laws::by_place();
}

/// What there is one of: the program of a script, and the root element of markup. And what has `]`, a line end and `[` in
/// it becomes no text of JSON alone: another text begins there.
pub fn single()
    ensures { Single }
{}
