ghost use Rattle.std.specs.Prelude.{◌≡◌, [], map, IfSome, IfNone};
ghost use Rattle.definitions.specs.Listed.{listed};
ghost use Rattle.certificate.specs.Spelling.{HasSpelling};
ghost use Rattle.certificate.specs.Values.{contents, pairs_in, value_of};

use crate::bounds::have_spelling;
use order_model::{ListedCell, VarIx};
use std::marker::Model;

/// The parts of a certificate, which may be out of the bounds of its text.
#[derive(Debug, Drop)]
pub struct CertificateParts {
    pub inputs: u8,
    pub outputs: u8,
    /// Top first. It need not be an order: the checker tests this.
    pub order: Vec<VarIx>,
    /// Top first.
    pub levels: Vec<u32>,
    /// The number of nodes that the certificate states.
    pub total: u32,
    /// The pairs (a, b), of which a has to stand above b. `None` in format 1.
    pub pairs: Option<Vec<(VarIx, VarIx)>>,
    /// The listed sets with their costs.
    pub cells: Vec<ListedCell>,
}

impl CertificateParts {
    /// The pairs, none in format 1.
    pub(crate) fn kept_pairs(&self) -> &[(VarIx, VarIx)]
        ensures { result.now ≡ pairs_in self.now.pairs }
    {
        match &self.pairs {
            None => &[],
            Some(pairs) => pairs,
        }
    }
}

/// An order with its level counts, and the least costs of sets, from which a checker concludes that
/// no order that keeps the pairs has fewer nodes. It may be wrong, but within the bounds of its
/// text.
#[derive(Debug, Drop)]
pub struct Certificate {
    parts: CertificateParts,
}

impl Model for Certificate {
    ghost use Rattle.definitions.specs.Certificates.{Certificate as Contents};
    ghost use Rattle.certificate.specs.Spelling.{HasSpelling};
    ghost use Rattle.certificate.specs.Values.{contents};

    ghost Value = { Contents };

    ghost view = { λ c. contents c.parts };

    ghost invariant = { λ c. HasSpelling (contents c.parts) };
}

impl Certificate {
    /// The certificate with these parts. `None` if they can't be written as text.
    pub fn from_parts(parts: CertificateParts) -> Option<Certificate>
        ensures some { IfSome result (λ c. c ≡ contents parts) }
        ensures none { IfNone result (HasSpelling (contents parts) → ⊥) }
    {
        if !have_spelling(&parts) {
            return None;
        }
        Some(Certificate { parts })
    }

    /// The certificate in format 1 with these parts; `order` and `levels` are top first. `None` if
    /// they can't be written as text.
    pub fn new(
        inputs: u8,
        outputs: u8,
        order: Vec<VarIx>,
        levels: Vec<u32>,
        total: u32,
        cells: Vec<ListedCell>,
    ) -> Option<Certificate>
        ensures some { IfSome result
            (λ c. c ≡ value_of 1 inputs outputs order.items levels.items total [] cells.items) }
        ensures none { IfNone result
            (HasSpelling
            (value_of 1 inputs outputs order.items levels.items total [] cells.items) → ⊥) }
    {
        Certificate::from_parts(CertificateParts {
            inputs,
            outputs,
            order,
            levels,
            total,
            pairs: None,
            cells,
        })
    }

    /// The certificate in format 2 with these parts. `None` if they can't be written as text.
    pub fn new2(
        inputs: u8,
        outputs: u8,
        order: Vec<VarIx>,
        levels: Vec<u32>,
        total: u32,
        pairs: Vec<(VarIx, VarIx)>,
        cells: Vec<ListedCell>,
    ) -> Option<Certificate>
        ensures some { IfSome result
            (λ c. c ≡ value_of 2 inputs outputs order.items levels.items total pairs.items
            cells.items) }
        ensures none { IfNone result
            (HasSpelling
            (value_of 2 inputs outputs order.items levels.items total pairs.items
            cells.items) → ⊥) }
    {
        Certificate::from_parts(CertificateParts {
            inputs,
            outputs,
            order,
            levels,
            total,
            pairs: Some(pairs),
            cells,
        })
    }

    /// The format of the certificate's text, 1 or 2.
    pub fn format(&self) -> u8
        ensures { result ≡ self.now.format }
    {
        match self.parts.pairs {
            None => 1,
            Some(_) => 2,
        }
    }

    /// The number of inputs.
    pub fn inputs(&self) -> u8
        ensures { result ≡ self.now.inputs }
    {
        self.parts.inputs
    }

    /// The number of outputs.
    pub fn outputs(&self) -> u8
        ensures { result ≡ self.now.outputs }
    {
        self.parts.outputs
    }

    /// The order, top first. It need not be one: the checker tests whether it has each variable
    /// once.
    pub fn order(&self) -> &[VarIx]
        ensures { result.now ≡ self.now.order }
    {
        &self.parts.order
    }

    /// The level counts that the certificate states, top first.
    pub fn levels(&self) -> &[u32]
        ensures { result.now ≡ self.now.levels }
    {
        &self.parts.levels
    }

    /// The number of nodes that the certificate states.
    pub fn total(&self) -> u32
        ensures { result ≡ self.now.total }
    {
        self.parts.total
    }

    /// The pairs (a, b), of which a has to stand above b, by rising a and b. Format 1 has none.
    pub fn pairs(&self) -> &[(VarIx, VarIx)]
        ensures pairs { result.now ≡ self.now.pairs }
        ensures spelled { HasSpelling self.now }
    {
        self.parts.kept_pairs()
    }

    /// The listed sets with their costs, by rising mask.
    pub fn cells(&self) -> &[ListedCell]
        ensures cells { map listed result.now ≡ self.now.cells }
        ensures spelled { HasSpelling self.now }
    {
        &self.parts.cells
    }
}
