//! The rows of the office's requests on names.
ghost use Rattle.index_json.specs.Reading.{ObjectIsReadTo};
ghost use Rattle.index_json.specs.Requests.{request_on_name, set_quota_row};

use super::owners;
use crate::object_reader::{ObjectReader, Unread};
use index_rules::Request;
use std::alloc::Global;

/// The request of an object, whose `do` is this word and not one of a request on users.
pub fn request_named(
    alloc: Global,
    word: &str,
    object: &mut ObjectReader<'_>,
) -> Result<Request, Unread>
    ensures { ObjectIsReadTo object.old object.new result (request_on_name word.now) }
{
    match word {
        "set_quota" => set_quota(alloc, object),
        "prohibit" => object
            .bytes(alloc, "name")
            .map(|name| Request::Prohibit { name }),
        "allow" => object
            .bytes(alloc, "name")
            .map(|name| Request::Allow { name }),
        word => owners::request_named(alloc, word, object),
    }
}

/// Reads the keys of a `set_quota`.
fn set_quota(alloc: Global, object: &mut ObjectReader<'_>) -> Result<Request, Unread>
    ensures { ObjectIsReadTo object.old object.new result set_quota_row }
{
    let quota = object.number("quota")?;
    let name = object.bytes(alloc, "name")?;
    Ok(Request::SetQuota { name, quota })
}
