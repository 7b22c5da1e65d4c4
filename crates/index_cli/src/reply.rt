//! The reply to one line.
ghost use Rattle.std.specs.Prelude.{◌≡◌, Some};
ghost use Rattle.index_names.specs.Project.{read_name};
ghost use Rattle.index_desk.specs.Rules.{by_tables};
ghost use Rattle.index_json.specs.Line.{line_of};
ghost use Rattle.index_cli.specs.Replies.{KeptLineIsAnswered, RepliesStanding, RepliesToLine};
ghost use Rattle.index_cli.specs.Replies.{line_reply_text};
ghost use Rattle.index_cli.specs.Telling.{TextAnswersParsedLine};
ghost use Rattle.index_cli.specs.LineCalls.{AsksKept, AsksOf};

use crate::end::LineEnd;
use crate::input::LONGEST_LINE;
use index_desk::Desk;
use index_json::{Line, answer_text, bad_body, read_line, standing_text};
use index_names::{NameFault, NormalName, normal};
use index_rules::{Answer, Books, Refusal};
use std::alloc::Global;

/// The reply to a line, without its line feed. The reply to a call is a constant, so it takes no memory once the call
/// was applied.
#[derive(Debug, Drop)]
pub enum LineReply {
    Fixed(&'static str),
    Made(String),
}

impl LineReply {
    /// The text of the reply.
    pub fn as_bytes(&self) -> &[u8]
        ensures { result.now ≡ line_reply_text self.now }
    {
        match self {
            LineReply::Fixed(text) => text.as_bytes(),
            LineReply::Made(text) => text.as_str().as_bytes(),
        }
    }
}

/// Replies to a line of this size, whose first 65,536 bytes are `front`. A longer line is malformed. It fails with
/// `OutOfMemory` only, and then no call was taken.
pub fn reply_to<B: Books>(
    alloc: Global,
    desk: &mut Desk<B>,
    front: &[u8],
    size: u64,
) -> Result<LineReply, LineEnd>
    ensures { RepliesToLine B.Books desk.old desk.new result
        (KeptLineIsAnswered size front.now) (AsksKept size front.now) }
{
    if size > LONGEST_LINE {
        return Ok(LineReply::Fixed(bad_body()));
    }
    reply_to_read(alloc, desk, front)
}

/// Replies to a line that is not too long.
fn reply_to_read<B: Books>(
    alloc: Global,
    desk: &mut Desk<B>,
    line: &[u8],
) -> Result<LineReply, LineEnd>
    ensures { RepliesToLine B.Books desk.old desk.new result
        (TextAnswersParsedLine by_tables (line_of line.now)) (AsksOf (line_of line.now)) }
{
    let Ok(asked) = read_line(alloc, line) else {
        return Err(LineEnd::OutOfMemory);
    };
    match asked {
        None => Ok(LineReply::Fixed(bad_body())),
        Some(Line::Call(call)) => Ok(LineReply::Fixed(answer_text(&desk.apply(alloc, call)))),
        Some(Line::Standing(name)) => standing_reply(alloc, desk, name.as_slice()),
    }
}

/// Replies to a line that asks for the standing of a name. It changes no table.
fn standing_reply<B: Books>(
    alloc: Global,
    desk: &mut Desk<B>,
    name: &[u8],
) -> Result<LineReply, LineEnd>
    ensures { RepliesStanding B.Books desk.old desk.new result (read_name name.now) }
{
    match normal(alloc, name) {
        Ok(name) => known_reply(alloc, desk, &name),
        Err(NameFault::OutOfMemory) => Err(LineEnd::OutOfMemory),
        Err(_) => Ok(LineReply::Fixed(answer_text(&Answer::Refused(Refusal::BadName)))),
    }
}

/// Replies with the standing of a valid name. It changes no table.
fn known_reply<B: Books>(
    alloc: Global,
    desk: &mut Desk<B>,
    name: &NormalName,
) -> Result<LineReply, LineEnd>
    ensures { RepliesStanding B.Books desk.old desk.new result (Some name.now) }
{
    let standing = match desk.standing(alloc, name) {
        Ok(standing) => standing,
        Err(fault) => return Ok(LineReply::Fixed(answer_text(&Answer::Fault(fault)))),
    };
    let text = standing_text(alloc, &standing);
    drop(standing);
    match text {
        Ok(text) => Ok(LineReply::Made(text)),
        Err(_) => Err(LineEnd::OutOfMemory),
    }
}
