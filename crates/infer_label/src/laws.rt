//! What holds of every name.
ghost use Rattle.std.specs.Prelude.{ℕ, List};
ghost use Rattle.std.specs.List.{AllByRecursion};
ghost use Rattle.infer_label.specs.Names.{IsSeen, name_shown};
ghost use Rattle.infer_label.specs.declared.options.Form.{Form};

/// No byte that is printed of a name is a control, whatever bytes the name has: none is below 20, and none is 7F.
pub fn no_controls()
    ensures { (form : Form) (name : List ℕ) → AllByRecursion IsSeen (name_shown form name) }
{}
