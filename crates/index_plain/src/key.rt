//! Keys of the tables.
ghost use Rattle.std.specs.Prelude.{◌≡◌};
ghost use Rattle.std.specs.FinMap.{IsAntisymmetric};
ghost use Rattle.std.proofs.Common.{sym, ◌∙◌};
ghost use Rattle.std.proofs.lemmas.Map.Lookups.{exact_bytes};

use index_digest::Digest256;
use index_names::{FileName, NormalName, Release};
use index_rules::UserId;

/// A key of a table. Tables are in the order of their keys, in which only equal keys tie, and a copy of a key is that
/// key.
pub trait Key: Ord + Clone + Drop {
    ghost exact: { IsAntisymmetric Self.Ord.cmp };

    ghost copied: { (key copy : Self) → Self.Clone.is_clone key copy → copy ≡ key };
}

impl Key for NormalName {
    ghost exact = { exact_bytes };

    ghost copied = { λ key copy c. sym c.3 ∙ c.4 ∙ c.2 };
}

impl Key for UserId {
    ghost exact = { exact_bytes };

    ghost copied = { λ key copy c. sym c.3 ∙ c.4 ∙ c.2 };
}

impl Key for FileName {
    ghost exact = { exact_bytes };

    ghost copied = { λ key copy c. c };
}

impl Key for Release {
    ghost exact = { exact_bytes };

    ghost copied = { λ key copy c. sym c.3 ∙ c.4 ∙ c.2 };
}

impl Key for Digest256 {
    ghost exact = { exact_bytes };

    ghost copied = { λ key copy c. c };
}
