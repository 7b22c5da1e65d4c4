//! The types in which a page is served.
ghost use Rattle.std.specs.Prelude.{◌≡◌};
ghost use Rattle.index_pages.specs.Accept.{IsChosen};
ghost use Rattle.index_pages.specs.Pages.{is_json};

use crate::tally::Tally;

/// A type in which a page is served (PEP 691, "Content-Types").
#[derive(Clone, Copy, Debug, PartialEq, Eq, Hash)]
pub enum Served {
    /// `text/html`.
    PlainHtml,
    /// `application/vnd.pypi.simple.v1+html`.
    Html,
    /// `application/vnd.pypi.simple.v1+json`.
    Json,
}

impl Served {
    /// The type that the values of all `Accept` headers choose, or `None` if they allow none (RFC 9110, section
    /// 12.5.1). No header, or none with a readable item, counts as `*/*`. Of equally acceptable types the first in the
    /// order above is chosen. It takes no memory.
    pub fn choose(accept: &[&[u8]]) -> Option<Served>
        ensures { IsChosen accept.now result }
    {
        let mut tally = Tally::new();
        for value in accept {
            tally = tally.with_value(value);
        }
        if tally.is_readable {
            tally.choose()
        } else {
            Some(Served::PlainHtml)
        }
    }

    /// Whether the type is JSON.
    pub(crate) fn is_json(self) -> bool
        ensures { result ≡ is_json self }
    {
        matches!(self, Served::Json)
    }
}
