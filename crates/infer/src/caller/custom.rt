//! A row that a caller added.
ghost use Rattle.std.specs.Prelude.{◌≡◌};
ghost use Rattle.std.specs.Bool.{OnFalse, OnTrue};
ghost use Rattle.infer.specs.Caller.{FixesAnswers};

use crate::table::file_type::{FileType, Matcher, MatcherType};

/// A row of a caller's. Its function may be called on every buffer, and its contract fixes one answer for each.
#[derive(Clone, Copy)]
pub struct CustomRow {
    pub mime_type: &'static str,
    pub extension: &'static str,
    pub matcher: Matcher,
    pub ghost callable: { IsAlwaysCallable matcher },
    pub ghost settled: { FixesAnswers (post matcher) },
}

impl CustomRow {
    ghost use Rattle.infer.specs.Rows.{AnyAccepts, custom_row};
    ghost use Rattle.infer.specs.Triple.{triple_of};

    pub fn file_type(&self) -> FileType
        ensures { triple_of result ≡ (custom_row self.now).shows }
    {
        FileType {
            matcher_type: MatcherType::Custom,
            mime_type: self.mime_type,
            extension: self.extension,
        }
    }

    #[tactic(auto, using(crate::proofs::RowLemmas::settled_no))]
    pub fn accepts(&self, buf: &[u8]) -> bool
        ensures yes { OnTrue result (AnyAccepts buf.now (custom_row self.now)) }
        ensures no { OnFalse result (¬ AnyAccepts buf.now (custom_row self.now)) }
    {
        (self.matcher)(buf)
    }
}
