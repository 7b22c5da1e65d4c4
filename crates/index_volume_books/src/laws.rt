//! Laws of books over a volume. Each function does nothing, and its contract is the law.
ghost use Rattle.std.specs.Prelude.{ℕ, List, length};
ghost use Rattle.index_rules.specs.Sound.{IsSound};
ghost use Rattle.index_rules.specs.Tables.{Tables};
ghost use Rattle.index_volume_books.specs.Over.{Fits, over};
ghost use Rattle.index_volume_books.specs.Taken.{EndsBehind, HasOtherBytes};

/// A volume with sound tables over it is neither too short nor another: no place that lies in it ends behind its end,
/// and at each place it has bytes with the digest of the file.
#[tactic(auto, using(crate::proofs::TakenLemmas::own_volume))]
pub fn sound_tables_are_not_refused()
    ensures { (volume : List ℕ) (places : Tables) → Fits (length volume) places
        → IsSound (over volume places)
        → (¬ EndsBehind (length volume) places) × (¬ HasOtherBytes volume places) }
{}
