//! The rows of requests on users.
ghost use Rattle.index_json.specs.Reading.{ObjectIsReadTo};
ghost use Rattle.index_json.specs.Requests.{add_user_row, set_token_row, request_on_user};

use super::names;
use crate::object_reader::{ObjectReader, Unread};
use index_rules::Request;
use std::alloc::Global;

/// The request of an object, whose `do` is this word.
pub fn request_named(
    alloc: Global,
    word: &str,
    object: &mut ObjectReader<'_>,
) -> Result<Request, Unread>
    ensures { ObjectIsReadTo object.old object.new result (request_on_user word.now) }
{
    match word {
        "add_user" => add_user(alloc, object),
        "set_token" => set_token(alloc, object),
        word => names::request_named(alloc, word, object),
    }
}

/// Reads the keys of an `add_user`.
fn add_user(alloc: Global, object: &mut ObjectReader<'_>) -> Result<Request, Unread>
    ensures { ObjectIsReadTo object.old object.new result add_user_row }
{
    let office = object.flag("office")?;
    let (user, token) = object.two_texts(alloc, "user", "token_sha256")?;
    Ok(Request::AddUser {
        user,
        office,
        token,
    })
}

/// Reads the keys of a `set_token`.
fn set_token(alloc: Global, object: &mut ObjectReader<'_>) -> Result<Request, Unread>
    ensures { ObjectIsReadTo object.old object.new result set_token_row }
{
    let texts = object.two_texts(alloc, "user", "token_sha256");
    texts.map(|(user, token)| Request::SetToken { user, token })
}
