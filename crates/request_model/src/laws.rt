ghost use Rattle.std.specs.Prelude.{◌≡◌, ℕ};
ghost use Rattle.request_model.specs.Strings.{Text};
ghost use Rattle.request_model.specs.declared.document.Document.{Document};
ghost use Rattle.request_model.specs.Place.{Reads, FaultAt};
ghost use Rattle.request_model.specs.SelectionLaws.{
  FlattensOnce,
  FlatsAreWritten,
  CanonicalTells,
  CanonicalTellsNoMore,
};

/// A text has one first fault at most, and none where it is a document.
pub fn faults()
    ensures one { (text : Text) (a b : ℕ) → FaultAt text a → FaultAt text b → a ≡ b }
    ensures none { (text : Text) (d : Document) (a : ℕ) → Reads text d → FaultAt text a → ⊥ }
{}

/// An operation has one flat selection at most, or one first fault, and not both.
pub fn flat_selections()
    ensures once { FlattensOnce }
{}

/// A canonical text tells its selection but for the declared variables, the type conditions, the order of arguments
/// and the value in a cursor's `initial_value`: written selections with equal texts differ in nothing else, and
/// selections that differ in nothing else have equal texts. Written are those whose names are names and whose
/// integers are integers as texts have them, and so is each flat selection of a text.
pub fn canonical_texts()
    ensures tells { CanonicalTells }
    ensures no_more { CanonicalTellsNoMore }
    ensures written { FlatsAreWritten }
{}
