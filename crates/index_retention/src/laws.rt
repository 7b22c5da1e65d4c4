//! Laws of every case.
ghost use Rattle.std.specs.Prelude.{◌≡◌, List, ◌∷◌};
ghost use Rattle.index_retention.specs.Attempts.{Attempt, tally_with, tally_of};

/// One attempt more is added to the tally of the earlier ones: the record of a case is the tally of all its attempts.
#[tactic(auto, using(crate::proofs::TallyLemmas::attempts_are_counted))]
pub fn attempts_are_counted()
    ensures { (attempt : Attempt) (earlier : List Attempt)
        → tally_of (attempt ∷ earlier) ≡ tally_with (tally_of earlier) attempt }
{}
