//! Calls in order, over any books.
ghost use Rattle.std.specs.Prelude.{◌≡◌, [], IfOk, IfErr, OnErr, Some, length, vec_capacity};
ghost use Rattle.index_rules.specs.Decided.{Decides};
ghost use Rattle.index_rules.specs.Effect.{effect};
ghost use Rattle.index_rules.specs.Verdict.{Verdict, verdict_now};
ghost use Rattle.index_rules.specs.Facts.{HasOneBearer, Sees, facts_in};
ghost use Rattle.index_rules.specs.Requests.{keys_of};
ghost use Rattle.index_rules.specs.Seen.{SeesName};
ghost use Rattle.index_rules.specs.Sound.{IsSound};
ghost use Rattle.index_desk.specs.Bodies.{AreBytesOf};
ghost use Rattle.index_desk.specs.Invariants.{KeepsInvariants};
ghost use Rattle.index_desk.specs.Looks.{LooksAt, LooksBy};
ghost use Rattle.index_desk.specs.Takes.{Settles, SettlesBy, Takes, TakesInTurn};
ghost use Rattle.index_desk.specs.Standings.{held_with};

use index_digest::Sealed;
use index_names::{FileName, NormalName};
use index_rules::{
    Answer, Books, Call, CaseRecord, Change, Decision, Fault, HeldName, Keys, NameRecord, NameSeen,
    Owners, Project, Standing, Stop, View, decide,
};
use std::alloc::Global;
use std::marker::Model;

mod books;
mod check;
mod report;
mod rows;

pub use report::ReportFault;

/// A desk takes calls over books. Contracts see the books.
#[derive(Drop)]
pub struct Desk<B> {
    books: B,
}

impl<B> Model for Desk<B> {
    ghost Value = { B };

    ghost coded = { B.code };

    ghost view = { λ d. d.books };
}

impl<B> Desk<B> {
    /// A desk over these books.
    pub fn new(books: B) -> Desk<B>
        ensures { result ≡ books }
    {
        Desk { books }
    }

    /// Returns the books.
    pub fn into_books(self) -> B
        ensures { result ≡ self }
    {
        let Desk { books } = self;
        books
    }
}

impl<B: Books> Desk<B> {
    /// The number of failed calls of the books, up to 18,446,744,073,709,551,615.
    pub fn failure_count(&self) -> u64
        ensures { result ≡ B.failures self.now }
    {
        self.books.failure_count()
    }

    /// Takes one call. Unless it answers `Accepted`, the tables are as before.
    pub fn apply(&mut self, alloc: Global, call: Call) -> Answer
        ensures takes { Takes B.Books self.old self.new call result }

        // At most one user still has each token's digest, and charges that add up still add up.
        ensures keeps { KeepsInvariants B.Books self.old self.new }
    {
        match consider(&mut self.books, alloc, call) {
            Ok(decision) => settle(&mut self.books, alloc, decision),
            Err(fault) => Answer::Fault(fault),
        }
    }

    /// Takes calls in order. Memory for all answers is taken first.
    ///
    /// # Errors
    ///
    /// `OutOfMemory`, and then no call was taken.
    pub fn run(&mut self, alloc: Global, calls: Vec<Call>) -> Result<Vec<Answer>, Fault>
        ensures takes { IfOk result (λ answers.
            TakesInTurn B.Books self.old self.new calls.items answers.items) }

        // At most one user still has each token's digest, and charges that add up still add up.
        ensures keeps { KeepsInvariants B.Books self.old self.new }
        ensures none { OnErr result (self.new ≡ self.old) }
        ensures fault { IfErr result (λ fault. fault ≡ Fault.OutOfMemory) }
    {
        let mut answers = Vec::with_capacity(alloc, calls.len())?;
        self.apply_all(alloc, calls, &mut answers);
        Ok(answers)
    }

    /// Takes calls in order. `answers` has room for their answers.
    fn apply_all(&mut self, alloc: Global, calls: Vec<Call>, answers: &mut Vec<Answer>)
        requires room { vec_capacity answers.old ≡ length calls.items }
        requires none { answers.old.items ≡ [] }
        ensures takes { TakesInTurn B.Books self.old self.new calls.items answers.new.items }
        ensures keeps { KeepsInvariants B.Books self.old self.new }
    {
        for call in calls {
            let answer = self.apply(alloc, call);
            answers.push_reserved(answer);
        }
    }

    /// The standing of a name. It changes no table.
    ///
    /// # Errors
    ///
    /// `OutOfMemory` if memory runs out, and `Store` if the books fail.
    pub fn standing(&mut self, alloc: Global, name: &NormalName) -> Result<Standing, Fault>
        ensures { LooksBy B.Books self.old self.new result
            (λ S rules s. rules.Stands s name.now) }
    {
        let NameSeen {
            name: record,
            owners,
            case,
        } = seen_name(&mut self.books, alloc, name)?;
        match record {
            None => free_name(name),
            Some(NameRecord::Prohibited) => prohibited_name(name),
            Some(NameRecord::Held(project)) => held_name(name, project, owners, case),
        }
    }

    /// The bytes and the digest of a file, or `None` if the books have none: in sound tables, if the file is not
    /// undeleted. It changes no table.
    ///
    /// # Errors
    ///
    /// `OutOfMemory` if memory runs out, and `Store` if the books fail.
    pub fn body(&mut self, alloc: Global, file: &FileName) -> Result<Option<Sealed>, Fault>
        // In sound tables the bytes have the size and the digest that the file is bound to. By a history they are those
        // of the file's last upload, if the file is undeleted.
        ensures looks { LooksBy B.Books self.old self.new result
            (λ S rules s. rules.Body s file.now) }
        ensures bound { LooksAt B.Books self.old self.new result
            (λ T body. IsSound T → AreBytesOf T file.now body) }
    {
        self.books.bytes_of(alloc, file)
    }
}

/// The decision on a call. It changes no table.
fn consider<B: Books>(
    books: &mut B,
    alloc: Global,
    call: Call,
) -> Result<Result<Decision, Stop>, Fault>
    ensures { LooksAt B.Books books.old books.new result (λ T decision. HasOneBearer T →
        Decides decision (verdict_now T call) (effect call.at call.request (facts_in T call))) }
{
    match view_of_call(books, alloc, &call) {
        Ok(view) => {
            let decision = decide(alloc, call, &view);
            drop(view);
            Ok(decision)
        }
        Err(fault) => {
            drop(call);
            Err(fault)
        }
    }
}

/// The view that the keys of a call read. It changes no table.
fn view_of_call<B: Books>(books: &mut B, alloc: Global, call: &Call) -> Result<View, Fault>
    ensures { LooksAt B.Books books.old books.new result (λ T. Sees T (keys_of call.now)) }
{
    let keys = call.keys(alloc)?;
    books.view(alloc, &keys)
}

/// Writes the change of a decision, and returns its answer.
fn settle<B: Books>(books: &mut B, alloc: Global, decision: Result<Decision, Stop>) -> Answer
    ensures decided { (verdict : Verdict) (change : Change) → Decides decision verdict change →
        SettlesBy B.Books books.old books.new verdict change result }
    ensures settles { Settles B.Books books.old books.new result }
{
    match decision {
        Ok(Decision::Already) => Answer::Already,
        Ok(Decision::Change(change)) => match books.write(alloc, change) {
            Ok(()) => Answer::Accepted,
            Err(fault) => Answer::Fault(fault),
        },
        Err(Stop::Refused(refusal)) => Answer::Refused(refusal),
        Err(Stop::OutOfMemory) => Answer::Fault(Fault::OutOfMemory),
    }
}

/// The record, the owners and the case of a name. It changes no table.
fn seen_name<B: Books>(books: &mut B, alloc: Global, name: &NormalName) -> Result<NameSeen, Fault>
    ensures { LooksAt B.Books books.old books.new result (λ T. SeesName T (Some name.now)) }
{
    let keys = Keys::of_name(name)?;
    let view = books.view(alloc, &keys)?;
    Ok(view.into_name())
}

/// The standing of a free name.
fn free_name(name: &NormalName) -> Result<Standing, Fault>
    ensures free { IfOk result (λ standing. standing ≡ Standing.Free name.now) }
    ensures memory { IfErr result (λ fault. fault ≡ Fault.OutOfMemory) }
{
    let name = name.clone()?;
    Ok(Standing::Free { name })
}

/// The standing of a prohibited name.
fn prohibited_name(name: &NormalName) -> Result<Standing, Fault>
    ensures prohibited { IfOk result (λ standing. standing ≡ Standing.Prohibited name.now) }
    ensures memory { IfErr result (λ fault. fault ≡ Fault.OutOfMemory) }
{
    let name = name.clone()?;
    Ok(Standing::Prohibited { name })
}

/// The standing of a held name.
fn held_name(
    name: &NormalName,
    project: Project,
    owners: Owners,
    case: Option<CaseRecord>,
) -> Result<Standing, Fault>
    ensures held { IfOk result (λ standing. standing ≡ held_with name.now project owners case) }
    ensures memory { IfErr result (λ fault. fault ≡ Fault.OutOfMemory) }
{
    let name = name.clone()?;
    Ok(Standing::Held(HeldName {
        name,
        project,
        owners,
        case,
    }))
}
