//! Laws of the reading.

ghost use Rattle.std.specs.Prelude.{◌≡◌, ℕ, List};
ghost use Rattle.cif_reader.specs.declared.refusal.CifRefusal.{CifRefusal};
ghost use Rattle.cif_reader.specs.File.{Contents};
ghost use Rattle.cif_reader.specs.Faults.{Refuses};
ghost use Rattle.cif_reader.specs.Reading.{Accepts};
ghost use Rattle.cif_reader.specs.Same.{IsSameFile};

/// A text is accepted or refused and never both, it is accepted with one file, and it is refused for one reason at one
/// position.
pub fn one_answer()
    ensures one_refusal { (text : List ℕ) (f g : CifRefusal) → Refuses text f → Refuses text g → f ≡ g }
    ensures never_both { (text : List ℕ) (file : Contents) (f : CifRefusal) → Accepts text file → Refuses text f → ⊥ }
    ensures one_file { (text : List ℕ) (f g : Contents) → Accepts text f → Accepts text g → IsSameFile f g }
{}
