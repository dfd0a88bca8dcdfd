//! Laws of the reading of PLA descriptions, each the contract of a function that does nothing.

ghost use Rattle.std.specs.Prelude.{◌≡◌, ◌⊎◌, ℕ, List};
ghost use Rattle.pla_reader.specs.declared.errors.LineFault.{LineFault};
ghost use Rattle.pla_reader.specs.Covers.{NamedCover, IsCover};
ghost use Rattle.pla_reader.specs.Reading.{Reads, FirstFault};

/// Law: each list of bytes states exactly one cover, or has exactly one first fault at one line.
pub fn inputs_have_one_reading()
    ensures some { (bytes : List ℕ) →
        ((cover : NamedCover) × Reads bytes cover)
        ⊎ ((line : ℕ) × (fault : LineFault) × FirstFault bytes line fault) }
    ensures not_both { (bytes : List ℕ) (cover : NamedCover) (line : ℕ) (fault : LineFault) →
        Reads bytes cover → FirstFault bytes line fault → ⊥ }
    ensures one_cover { (bytes : List ℕ) (a b : NamedCover) → Reads bytes a →
        Reads bytes b → a ≡ b }
    ensures one_fault { (bytes : List ℕ) (i j : ℕ) (e f : LineFault) →
        FirstFault bytes i e → FirstFault bytes j f → (i ≡ j) × (e ≡ f) }
{}

/// Law: a cover has 1 to 16 inputs and outputs with a name each, and each product has an entry for
/// each of them.
pub fn covers_are_well_formed()
    ensures { (bytes : List ℕ) (cover : NamedCover) → Reads bytes cover → IsCover cover }
{}
