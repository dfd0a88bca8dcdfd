//! Laws of the texts of certificates, each the contract of a function that does nothing.

ghost use Rattle.std.specs.Prelude.{◌≡◌, ◌+◌, ◌*◌, ◌⊎◌, ◌≤◌, ℕ, List, [], length};
ghost use Rattle.definitions.specs.Certificates.{Certificate, certificate_of};
ghost use Rattle.definitions.specs.Functions.{Function};
ghost use Rattle.definitions.specs.Orders.{IsOrder};
ghost use Rattle.definitions.specs.Pairs.{AreBelow, Pair, sorted_pairs};
ghost use Rattle.certificate.specs.declared.faults.LineFault.{LineFault};
ghost use Rattle.certificate.specs.Spelling.{HasSpelling, spelling};
ghost use Rattle.certificate.specs.Faults.{Spells, FirstCertFault, faults};
ghost use Rattle.certificate.specs.Heads.{most_bytes};

/// Law: different certificates have different texts.
pub fn texts_have_one_certificate()
    ensures { (a b : Certificate) → HasSpelling a → HasSpelling b →
        spelling a ≡ spelling b → a ≡ b }
{}

/// Law: a certificate that can be written as text has a text without faults.
pub fn spellings_have_no_fault()
    ensures { (cert : Certificate) → HasSpelling cert → faults (spelling cert) ≡ [] }
{}

/// Law: each text is that of a certificate or has exactly one first fault, and not both.
pub fn texts_have_one_reading()
    ensures some { (text : List ℕ) →
        ((cert : Certificate) × Spells text cert) ⊎
        ((line : ℕ) × (fault : LineFault) × FirstCertFault text line fault) }
    ensures not_both { (text : List ℕ) (cert : Certificate) (line : ℕ) (fault : LineFault) →
        Spells text cert → FirstCertFault text line fault → ⊥ }
    ensures one_fault { (text : List ℕ) (i j : ℕ) (e f : LineFault) → FirstCertFault text i e →
        FirstCertFault text j f → (i ≡ j) × (e ≡ f) }
{}

/// Law: a certificate's text has at most 256 bytes plus 6 for each pair and 12 for each listed set,
/// and never more than are read.
pub fn spellings_are_short()
    ensures bytes { (cert : Certificate) → HasSpelling cert →
        length (spelling cert) ≤ 256 + 6 * length cert.pairs + 12 * length cert.cells }
    ensures readable { (text : List ℕ) (cert : Certificate) → Spells text cert →
        length text ≤ most_bytes }
{}

/// Law: the certificate that `minorder` makes for an order can be written as text.
pub fn orders_have_certificates()
    ensures { (n : ℕ) (F : List Function) (P : List Pair) (order : List ℕ) → 1 ≤ n → n ≤ 16 →
        1 ≤ length F → length F ≤ 16 → IsOrder n order →
        AreBelow n P → length P ≤ 240 → sorted_pairs n P ≡ P →
        HasSpelling (certificate_of n F P order) }
{}
