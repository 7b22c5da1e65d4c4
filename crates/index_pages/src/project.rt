//! The page of a project.
ghost use Rattle.std.specs.Prelude.{◌≡◌, ◌++◌, [], false};
ghost use Rattle.serde_json.specs.Written.{comma_if};
ghost use Rattle.index_pages.specs.Html.{project_top};
ghost use Rattle.index_pages.specs.Left.{html_left, json_left, files_left};
ghost use Rattle.index_pages.specs.Pages.{project_page_of};
ghost use Rattle.index_pages.specs.Parts.{file_line, files_bottom, files_top, json_text, once, project_rest, releases_text};
ghost use Rattle.index_pages.specs.Pieces.{Adds, AddsRow, to_pieces};
ghost use Rattle.index_pages.specs.Rest.{IsWholeOf};

use crate::html::{append_bottom, append_file, append_project_top};
use crate::json_parts::{append_comma, append_json_file, append_json_text};
use crate::page::Page;
use crate::pieces::Pieces;
use crate::served::Served;
use index_names::Release;
use index_rules::FileRow;
use std::alloc::{AllocError, Global};
use std::collections::BTreeSet;

/// The page of a project so far.
pub struct ProjectPage {
    as_json: bool,
    is_started: bool,
    /// The releases of the files so far. A page in HTML does not list them, and keeps none.
    releases: BTreeSet<Release>,
}

// By hand: a drop is then one call at each exit of a function (docs/developers/PROOF-COSTS.md).
impl Drop for ProjectPage {
    fn drop(self) {
        let ProjectPage {
            as_json: _as_json,
            is_started: _is_started,
            releases: _releases,
        } = self;
    }
}

impl ProjectPage {
    /// A page without files. It takes no memory.
    pub(crate) fn new(alloc: Global, served: Served) -> ProjectPage
        ensures { (name : _) → IsWholeOf (files_left result name) (project_page_of served name) }
    {
        ProjectPage {
            as_json: served.is_json(),
            is_started: false,
            releases: BTreeSet::new(alloc),
        }
    }

    /// Appends a row in JSON, after the start of the page if it is the first row, and notes its release.
    fn json_row<O: Pieces>(
        &mut self,
        project: &str,
        row: &FileRow,
        out: &mut O,
    ) -> Result<(), AllocError>
        ensures kept { self.new.as_json ≡ self.old.as_json }
        ensures row { AddsRow (json_left self.old project.now) row.now
            (json_left self.new project.now) (to_pieces O.holds out.old out.new) result }
    {
        self.releases.insert(row.release.clone()?)?;
        append_file_line(out, project, row, self.is_started)?;
        self.is_started = true;
        Ok(())
    }

    /// Appends a row in HTML, after the start of the page if it is the first row.
    fn html_row<O: Pieces>(
        &mut self,
        project: &str,
        row: &FileRow,
        out: &mut O,
    ) -> Result<(), AllocError>
        ensures kept { self.new.as_json ≡ self.old.as_json }
        ensures row { AddsRow (html_left self.old project.now) row.now
            (html_left self.new project.now) (to_pieces O.holds out.old out.new) result }
    {
        append_html_start(out, project, self.is_started)?;
        append_file(out, project.as_bytes(), row)?;
        self.is_started = true;
        Ok(())
    }

    /// Appends the end of the page in JSON, after its start if it had no row.
    fn json_end<O: Pieces>(&self, project: &str, out: &mut O) -> Result<(), AllocError>
        ensures { Adds O.holds out.old out.new result (json_left self.now project.now []) }
    {
        append_json_start(out, self.is_started)?;
        out.put(b"]")?;
        append_files_bottom(out, project, &self.releases)?;
        Ok(())
    }

    /// Appends the end of the page in HTML, after its start if it had no row.
    fn html_end<O: Pieces>(&self, project: &str, out: &mut O) -> Result<(), AllocError>
        ensures { Adds O.holds out.old out.new result (html_left self.now project.now []) }
    {
        append_html_start(out, project, self.is_started)?;
        append_bottom(out)?;
        Ok(())
    }
}

impl Page for ProjectPage {
    type Row = FileRow;

    ghost rest = { λ page project.
        project_rest page.as_json project page.is_started page.releases.keys };

    fn append_row<O: Pieces>(
        &mut self,
        project: &str,
        row: &FileRow,
        out: &mut O,
    ) -> Result<(), AllocError> {
        if self.as_json {
            self.json_row(project, row, out)
        } else {
            self.html_row(project, row, out)
        }
    }

    fn append_last<O: Pieces>(&self, project: &str, out: &mut O) -> Result<(), AllocError> {
        if self.as_json {
            self.json_end(project, out)
        } else {
            self.html_end(project, out)
        }
    }
}

/// Appends the text before the files, unless it was written.
fn append_html_start<O: Pieces>(
    out: &mut O,
    project: &str,
    is_started: bool,
) -> Result<(), AllocError>
    ensures { Adds O.holds out.old out.new result (once is_started (project_top project.now)) }
{
    if is_started {
        return Ok(());
    }
    append_project_top(out, project.as_bytes())
}

/// Appends the text before the files, unless it was written.
#[tactic(auto, unfolding(crate::specs::Parts::files_top))]
fn append_json_start<O: Pieces>(out: &mut O, is_started: bool) -> Result<(), AllocError>
    ensures { Adds O.holds out.old out.new result (once is_started files_top) }
{
    if is_started {
        return Ok(());
    }
    out.put(b"{\"files\":[")
}

/// Appends the text of a file, behind the text before it.
fn append_file_line<O: Pieces>(
    out: &mut O,
    project: &str,
    row: &FileRow,
    is_started: bool,
) -> Result<(), AllocError>
    ensures { Adds O.holds out.old out.new result (file_line project.now is_started row.now) }
{
    append_json_start(out, is_started)?;
    append_comma(out, is_started)?;
    append_json_file(out, project, row)?;
    Ok(())
}

/// Appends the text behind the files and their bracket.
fn append_files_bottom<O: Pieces>(
    out: &mut O,
    project: &str,
    releases: &BTreeSet<Release>,
) -> Result<(), AllocError>
    ensures { Adds O.holds out.old out.new result (files_bottom project.now releases.now.keys) }
{
    out.put(b",\"meta\":{\"api-version\":\"1.1\"},\"name\":")?;
    append_json_text(out, project)?;
    out.put(b",\"versions\":[")?;
    append_releases(out, releases)?;
    out.put(b"}")?;
    Ok(())
}

/// Appends the releases, and the bracket behind them.
fn append_releases<O: Pieces>(out: &mut O, releases: &BTreeSet<Release>) -> Result<(), AllocError>
    ensures { Adds O.holds out.old out.new result (releases_text false releases.now.keys) }
{
    let mut is_later = false;
    for release in releases {
        append_release(out, release, is_later)?;
        is_later = true;
    }
    out.put(b"]")?;
    Ok(())
}

/// Appends a release to the list of them, after a comma if it is not the first.
fn append_release<O: Pieces>(
    out: &mut O,
    release: &Release,
    is_later: bool,
) -> Result<(), AllocError>
    ensures { Adds O.holds out.old out.new result (comma_if is_later ++ json_text release.now) }
{
    append_comma(out, is_later)?;
    append_json_text(out, release.text())?;
    Ok(())
}
