//! Facts about the definitions, each the contract of a function that does nothing.
ghost use Rattle.infer_deep.specs.Laws.{Apart, Arrivals, Beginnings, Growth, Leads, Near};

/// What a matcher accepts it accepts with any bytes after it too.
pub fn growth()
    ensures { Growth }
{}

/// Of a buffer of at least 1024 bytes, PDF, Matroska and WebM are decided by the first 1024.
pub fn near()
    ensures { Near }
{}

/// The first bytes that each signature allows, if it does not allow all of them.
pub fn leads()
    ensures { Leads }
{}

/// Which types exclude each other.
pub fn apart()
    ensures { Apart }
{}

/// What more bytes can bring to a buffer of at least 1024 bytes: each type comes only if the buffer begins in one way.
/// More bytes do not bring such a beginning.
pub fn arrival()
    ensures comes { Arrivals }
    ensures early { Beginnings }
{}
