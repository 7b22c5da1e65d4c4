//! The record of the attempts to reach a name's owner.
ghost use Rattle.std.specs.Prelude.{◌≡◌, ◌≤◌, ◌<◌, ◌↔◌, ℕ, List, [], ◌∷◌, IsTrue, IsSome, IfErr, OnOk, OnErr, SomeIff};
ghost use Rattle.index_retention.specs.Attempts.{Attempt, IsTally, attempt_of, is_full, most_attempts, tally_from, tally_with, tally_of};

use crate::fault::CaseFault;
use std::marker::Model;

// The most attempts of a case.
const MOST_ATTEMPTS: u64 = 1_000;

/// What the candidate wants the name for.
#[derive(Clone, Copy, Debug, PartialEq, Eq, Hash)]
pub enum CaseKind {
    /// Continued maintenance of the project.
    Continue,
    /// Reuse of the name for another project.
    Reuse,
}

/// The address by which the owner is sought.
#[derive(Clone, Copy, Debug, PartialEq, Eq, Hash)]
pub enum Means {
    /// The address in the user's profile.
    Profile,
    /// The project's Author field.
    Author,
    /// The project's documentation or home page.
    Pages,
}

/// The record of a case's attempts. Contracts see it as their `Tally`.
#[derive(Clone, Copy, Debug, PartialEq, Eq)]
pub struct CaseState {
    attempts: u64,
    sent: u64,
    profile: bool,
    author: bool,
    pages: bool,
    first: Option<u64>,
}

impl Model for CaseState {
    ghost use Rattle.index_retention.specs.Attempts.{IsTally, Tally};

    ghost Value = { Tally };

    ghost view = { λ c. record {
      attempts = c.attempts;
      sent = c.sent;
      profile = c.profile;
      author = c.author;
      pages = c.pages;
      first = c.first;
    } };

    ghost invariant = { λ c. IsTally c.attempts c.sent c.first };

    ghost inverse = { λ t. record {
      attempts = t.attempts;
      sent = t.sent;
      profile = t.profile;
      author = t.author;
      pages = t.pages;
      first = t.first;
    } };
}

impl CaseState {
    /// A case with no attempt.
    #[tactic(auto, unfolding(crate::specs::Attempts::tally_of))]
    pub fn new() -> CaseState
        ensures { result ≡ tally_of [] }
    {
        CaseState {
            attempts: 0,
            sent: 0,
            profile: false,
            author: false,
            pages: false,
            first: None,
        }
    }

    /// The case with these parts, if they are valid together: no more attempts sent than recorded, no more than 1,000,
    /// and a first moment exactly if one was sent.
    pub fn from_parts(
        attempts: u64,
        sent: u64,
        profile: bool,
        author: bool,
        pages: bool,
        first: Option<u64>,
    ) -> Option<CaseState>
        ensures { SomeIff result (IsTally attempts sent first)
            (tally_from attempts sent profile author pages first) }
    {
        if sent > attempts || attempts > MOST_ATTEMPTS || first.is_some() != (sent > 0) {
            return None;
        }
        Some(CaseState {
            attempts,
            sent,
            profile,
            author,
            pages,
            first,
        })
    }

    /// How many attempts were recorded.
    pub fn attempts(&self) -> u64
        ensures value { result ≡ self.now.attempts }
        ensures within { result ≤ most_attempts }
    {
        self.attempts
    }

    /// How many attempts were sent.
    pub fn sent(&self) -> u64
        ensures value { result ≡ self.now.sent }
        ensures within { result ≤ self.now.attempts }
    {
        self.sent
    }

    /// Whether there is an attempt by the address in the user's profile, sent or not.
    pub fn profile(&self) -> bool
        ensures { result ≡ self.now.profile }
    {
        self.profile
    }

    /// Whether there is an attempt by the Author field, sent or not.
    pub fn author(&self) -> bool
        ensures { result ≡ self.now.author }
    {
        self.author
    }

    /// Whether there is an attempt by the documentation or home page, sent or not.
    pub fn pages(&self) -> bool
        ensures { result ≡ self.now.pages }
    {
        self.pages
    }

    /// The moment, in Unix seconds, of the first attempt that was sent, in the order of recording.
    pub fn first(&self) -> Option<u64>
        ensures value { result ≡ self.now.first }
        ensures present { IsSome result ↔ (0 < self.now.sent) }
    {
        self.first
    }
}

/// Records one attempt by `means` at the moment `at`, in Unix seconds; `sent` is false if the means has no address.
///
/// # Errors
///
/// `AttemptsFull` if the case has 1,000 attempts; it stays as it was.
#[tactic(auto, using(crate::proofs::TallyLemmas::attempts_are_counted))]
pub fn note(case: &mut CaseState, means: Means, sent: bool, at: u64) -> Result<(), CaseFault>
    ensures full { (result ≡ Err CaseFault.AttemptsFull) ↔ IsTrue (is_full case.old) }
    ensures only_full { IfErr result (λ fault. fault ≡ CaseFault.AttemptsFull) }
    ensures noted { OnOk result (case.new ≡ tally_with case.old (attempt_of means sent at)) }
    ensures recorded { (earlier : List Attempt) → case.old ≡ tally_of earlier
        → OnOk result (case.new ≡ tally_of (attempt_of means sent at ∷ earlier)) }
    ensures unchanged { OnErr result (case.new ≡ case.old) }
{
    if case.attempts == MOST_ATTEMPTS {
        return Err(CaseFault::AttemptsFull);
    }
    *case = CaseState {
        attempts: case.attempts + 1,
        sent: case.sent + u64::from(sent),
        profile: means == Means::Profile || case.profile,
        author: means == Means::Author || case.author,
        pages: means == Means::Pages || case.pages,
        first: case.first.or(sent.then_some(at)),
    };
    Ok(())
}
