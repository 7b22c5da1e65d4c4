//! The root page.
ghost use Rattle.std.specs.Prelude.{◌≡◌, ◌++◌, [], true, OnOk};
ghost use Rattle.serde_json.specs.Written.{comma_if};
ghost use Rattle.index_pages.specs.Left.{held_line, held_text, names_left};
ghost use Rattle.index_pages.specs.Pages.{root_page_of};
ghost use Rattle.index_pages.specs.Parts.{name_text, root_bottom, root_rest, root_start};
ghost use Rattle.index_pages.specs.Pieces.{Adds};
ghost use Rattle.index_pages.specs.Rest.{IsWholeOf};

use crate::html::{append_bottom, append_name, append_root_top};
use crate::json_parts::{append_comma, append_json_text};
use crate::page::Page;
use crate::pieces::Pieces;
use crate::served::Served;
use index_rules::{NameRecord, NameRow};
use std::alloc::AllocError;

/// The root page so far. It lists the held names among its rows.
#[derive(Drop)]
pub struct RootPage {
    as_json: bool,
    is_started: bool,
}

impl RootPage {
    /// A page without names. It takes no memory.
    pub(crate) fn new(served: Served) -> RootPage
        ensures { IsWholeOf (names_left result []) (root_page_of served) }
    {
        RootPage {
            as_json: served.is_json(),
            is_started: false,
        }
    }

    /// Appends the text of a held name.
    fn append_held<O: Pieces>(
        &mut self,
        name: &str,
        shown: &str,
        out: &mut O,
    ) -> Result<(), AllocError>
        ensures kept { self.new.as_json ≡ self.old.as_json }
        ensures started { OnOk result (self.new.is_started ≡ true) }
        ensures text { Adds O.holds out.old out.new result (held_text self.old name.now shown.now) }
    {
        append_start(out, self.as_json, self.is_started)?;
        append_line(out, self, name, shown)?;
        self.is_started = true;
        Ok(())
    }
}

impl Page for RootPage {
    type Row = NameRow;

    ghost rest = { λ page _. root_rest page.as_json page.is_started };

    fn append_row<O: Pieces>(
        &mut self,
        _name: &str,
        row: &NameRow,
        out: &mut O,
    ) -> Result<(), AllocError> {
        match &row.record {
            NameRecord::Held(project) => {
                self.append_held(row.name.text(), project.shown().as_str(), out)
            }
            NameRecord::Prohibited => Ok(()),
        }
    }

    fn append_last<O: Pieces>(&self, _name: &str, out: &mut O) -> Result<(), AllocError> {
        append_start(out, self.as_json, self.is_started)?;
        append_root_bottom(out, self.as_json)?;
        Ok(())
    }
}

/// Appends the text before the names, unless it was written.
#[tactic(auto, unfolding(crate::specs::Parts::names_top))]
fn append_start<O: Pieces>(out: &mut O, as_json: bool, is_started: bool) -> Result<(), AllocError>
    ensures { Adds O.holds out.old out.new result (root_start as_json is_started) }
{
    if is_started {
        Ok(())
    } else if as_json {
        out.put(b"{\"meta\":{\"api-version\":\"1.1\"},\"projects\":[")
    } else {
        append_root_top(out)
    }
}

/// Appends the line of a held name, in the page's format.
fn append_line<O: Pieces>(
    out: &mut O,
    page: &RootPage,
    name: &str,
    shown: &str,
) -> Result<(), AllocError>
    ensures { Adds O.holds out.old out.new result (held_line page.now name.now shown.now) }
{
    if page.as_json {
        append_json_name(out, shown, page.is_started)
    } else {
        append_name(out, name.as_bytes(), shown.as_bytes())
    }
}

/// Appends a name in its display spelling, after a comma if it is not the first.
fn append_json_name<O: Pieces>(out: &mut O, shown: &str, is_later: bool) -> Result<(), AllocError>
    ensures { Adds O.holds out.old out.new result (comma_if is_later ++ name_text shown.now) }
{
    append_comma(out, is_later)?;
    out.put(b"{\"name\":")?;
    append_json_text(out, shown)?;
    out.put(b"}")?;
    Ok(())
}

/// Appends the text behind the names.
fn append_root_bottom<O: Pieces>(out: &mut O, as_json: bool) -> Result<(), AllocError>
    ensures { Adds O.holds out.old out.new result (root_bottom as_json) }
{
    if as_json {
        out.put(b"]}")
    } else {
        append_bottom(out)
    }
}
