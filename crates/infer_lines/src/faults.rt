//! What is said of a fault.
ghost use Rattle.std.specs.Prelude.{◌≡◌};
ghost use Rattle.infer_lines.specs.Faults.{fault_text};

use infer::Fault;

/// What is said of a fault. The `Display` of a fault says the same, but is derived, so no contract has its text.
pub fn text_of(fault: Fault) -> &'static str
    ensures { result.now ≡ fault_text fault }
{
    match fault {
        Fault::Open(_) => "cannot open",
        Fault::Read(_) => "cannot read",
        Fault::Memory => "no memory",
    }
}
