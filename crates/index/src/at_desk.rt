//! Work at a desk over any books.
ghost use Rattle.index_http.specs.Steps.{at_desk};
ghost use Rattle.index.specs.Tasks.{Works};

use crate::database::Work;
use crate::end::End;
use index_cache::Cache;
use index_desk::Desk;
use index_rules::Books;

/// Does work at a desk over books, with a cache of the size that the work asks for. Returns the books, and the result
/// of the work.
pub fn run_at_desk<B: Books, W: Work>(
    rt: &HostRuntime,
    books: B,
    work: &mut W,
) -> (B, Result<u64, End>)
    ensures works { Works (at_desk B.Books books result.0) (W.task work.old work.new) result.1 }
    ensures honest { B.IsHonest result.0 → B.IsHonest books }
    ensures clean { B.IsClean result.0 → B.IsClean books }
    ensures caused { W.IsCaused work.old work.new result.1 }
{
    let mut desk = Desk::new(Cache::new(rt.alloc(), books, work.keep_recent()));
    let end = work.run(rt, &mut desk);
    (desk.into_books().into_books(), end)
}
