//! Facts about the definitions, each the contract of a function that does nothing beside, but for calls of other laws. To
//! use a law, call it.
ghost use Rattle.std.specs.Prelude.{◌≡◌, ◌↔◌, ◌+◌, ℕ, IsTrue, List, Some, length};
ghost use Rattle.std.specs.List.{list_all};
ghost use Rattle.infer.specs.declared.table.rows.TheConstants.{ROW_COUNT};
ghost use Rattle.infer_more.specs.Described.{DescribesRows};
ghost use Rattle.infer_more.specs.Line.{Row};
ghost use Rattle.infer_more.specs.Text.{rows_of};
ghost use Rattle.infer_more.specs.Laws.{AllAreBelow, AllLast, IsSteady, NoneIsBlank, OthersAreLost, OwnTextsFit, ShowsBuiltIn, TextsFit};
ghost use Rattle.infer_more.specs.Samples.{AllReach, has_room};
ghost use Rattle.infer_more.specs.Table.{further};
ghost use Rattle.infer_more.specs.Wider.{shown};
ghost use Rattle.infer_more.specs.declared.index.generated.TheConstants.{FURTHER_COUNT};
ghost use Rattle.infer_more.specs.declared.samples.TheConstants.{SAMPLE_SIZE};

/// A yes stays a yes, but of JSON, JSON lines and plain text: what the signature of a further row accepts, it accepts however
/// the buffer goes on. Of each of these three some buffer loses it.
#[tactic(auto, using(crate::proofs::LawLemmas::all_last, crate::proofs::LostLemmas::others_lost))]
pub fn lasting()
    ensures lasting { AllLast }
    ensures lost { OthersAreLost }
{
    infer_formats::laws::growth();
    infer_sig::laws::growth();
    infer_formats::laws::single();
}

/// As long as the built-in answer stays, bytes after a buffer never make its first further row a later one, unless that is
/// one of these three.
#[tactic(auto, using(crate::proofs::LawLemmas::steady))]
pub fn index()
    ensures { IsSteady }
{
    lasting();
}

/// No further row but plain text accepts a buffer of white space, and none the empty one.
pub fn blank()
    ensures { NoneIsBlank }
{
    infer_formats::laws::leads();
    infer_sig::laws::by_place();
}

/// The wider answer contradicts no built-in one: if it is a further row, the built-in answer is that row's parent, and
/// none if it has no parent. Otherwise both are the same.
#[tactic(auto, using(crate::proofs::BelowLemmas::all_below))]
pub fn below()
    ensures { AllAreBelow }
{}

/// Every further row is the wider answer of some buffer: of its sample.
#[tactic(auto, using(crate::proofs::SampleLemmas::row_reaches))]
pub fn reach()
    ensures { AllReach }
{
    infer::laws::leads();
    infer_sig::laws::by_place();
    infer_deep::laws::apart();
    infer_formats::laws::leads();
    infer_formats::laws::single();
}

/// Every sample of a further row has room for what it holds.
pub(crate) fn room()
    ensures { IsTrue (list_all has_room further) }
{}

/// How many rows there are, that each built-in row is the row of its number among all, and how long a sample may be.
pub fn numbers()
    ensures many { length shown ≡ ROW_COUNT + FURTHER_COUNT }
    ensures built_in { ShowsBuiltIn }
    ensures longest { SAMPLE_SIZE ≡ 32774 }
{
    infer::rows::numbers();
}

/// No MIME type and no extension of a row, built-in or further, has more than 73 bytes.
#[tactic(auto, using(crate::proofs::SizeLemmas::texts_fit))]
pub fn sizes()
    ensures { TextsFit 73 }
{}

/// Nor has one of an answer with types of a text more than 255.
pub fn own_sizes()
    ensures { OwnTextsFit }
{
    sizes();
}

/// The rows that are read of a text of types are those that it describes.
#[tactic(auto, using(crate::proofs::DescribedLemmas::described_rows, crate::proofs::DescribedLemmas::rows_described))]
pub fn described()
    ensures { (text : List ℕ) (rows : List Row) → rows_of text ≡ Some rows
        ↔ DescribesRows text rows }
{}
