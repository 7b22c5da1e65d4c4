//! The rows of requests on who owns a name.
ghost use Rattle.index_json.specs.Reading.{ObjectIsReadTo};
ghost use Rattle.index_json.specs.Requests.{request_on_owner};

use super::files;
use crate::object_reader::{ObjectReader, Unread};
use index_rules::Request;
use std::alloc::Global;

/// The request of an object, whose `do` is this word and not one of a request on users or by the office.
pub fn request_named(
    alloc: Global,
    word: &str,
    object: &mut ObjectReader<'_>,
) -> Result<Request, Unread>
    ensures { ObjectIsReadTo object.old object.new result (request_on_owner word.now) }
{
    match word {
        "claim" => object
            .bytes(alloc, "name")
            .map(|name| Request::Claim { name }),
        "relinquish" => object
            .bytes(alloc, "name")
            .map(|name| Request::Relinquish { name }),
        "add_owner" => {
            let texts = object.two_texts(alloc, "name", "user");
            texts.map(|(name, user)| Request::AddOwner { name, user })
        }
        "remove_owner" => {
            let texts = object.two_texts(alloc, "name", "user");
            texts.map(|(name, user)| Request::RemoveOwner { name, user })
        }
        word => files::request_named(alloc, word, object),
    }
}
