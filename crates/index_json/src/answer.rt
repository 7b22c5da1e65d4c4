//! The texts of answers.
ghost use Rattle.std.specs.Prelude.{◌≡◌};
ghost use Rattle.index_json.specs.AnswerText.{answer_text_of, bad_body_text};

use index_rules::{Answer, Fault, Refusal};

/// The answer as compact JSON, with keys in byte order. It takes no memory.
#[tactic(auto, unfolding(crate::proofs::OnLiterals::answers_on_literals))]
pub fn answer_text(answer: &Answer) -> &'static str
    ensures { result.now ≡ answer_text_of answer.now }
{
    match answer {
        Answer::Accepted => "{\"answer\":\"accepted\"}",
        Answer::Already => "{\"answer\":\"already\"}",
        Answer::Refused(refusal) => refusal_text(*refusal),
        Answer::Fault(Fault::OutOfMemory) => "{\"answer\":\"fault\",\"name\":\"OutOfMemory\"}",
        Answer::Fault(Fault::Store) => "{\"answer\":\"fault\",\"name\":\"Store\"}",
    }
}

/// The text of a refusal, by a table of the refusals' numbers and names.
macro_rules! refusal_text_by {
    ($refusal:expr; $($code:literal $name:ident,)*) => {
        match $refusal {
            $(Refusal::$name => concat!(
                "{\"answer\":\"refused\",\"code\":", $code, ",\"name\":\"", stringify!($name), "\"}"
            ),)*
        }
    };
}

/// The name of a refusal in an answer.
#[tactic(auto, unfolding(crate::proofs::OnLiterals::answers_on_literals))]
fn refusal_text(refusal: Refusal) -> &'static str
    ensures { result.now ≡ answer_text_of (Answer.Refused refusal) }
{
    refusal_text_by! { refusal;
        1 BadMoment,
        2 BadToken,
        3 NotOffice,
        4 BadUser,
        5 BadName,
        6 BadFileName,
        7 BadRelease,
        8 BadText,
        9 BadDigest,
        10 TooLarge,
        11 DigestMismatch,
        12 QuotaTooLarge,
        13 NoUser,
        14 UserExists,
        15 TokenTaken,
        16 NameProhibited,
        17 NoProject,
        18 NotOwner,
        19 NameHeld,
        20 LastOwner,
        21 FilesRemain,
        22 NoFile,
        23 NoRelease,
        24 FileNameTaken,
        25 FileBanned,
        26 OverQuota,
        27 QuotaBelowCharge,
        28 CaseOpen,
        29 OwnerCandidate,
        30 NoCase,
        31 AttemptsFull,
        32 TooFewAttempts,
        33 TooEarly,
        34 RecentRelease,
        35 HomePageActive,
    }
}

/// The answer to a malformed line or body. It takes no memory.
#[tactic(auto, unfolding(crate::proofs::OnLiterals::answers_on_literals))]
pub fn bad_body() -> &'static str
    ensures { result.now ≡ bad_body_text }
{
    "{\"answer\":\"message\",\"name\":\"BadBody\"}"
}
