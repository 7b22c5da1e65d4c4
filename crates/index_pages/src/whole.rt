//! Whole pages, for callers that have all rows.
ghost use Rattle.std.specs.Prelude.{◌≡◌, ◌++◌, List, ◌∷◌, OnOk};
ghost use Rattle.index_rules.specs.Memory.{OkOrNoMemory};
ghost use Rattle.index_pages.specs.Pages.{project_page_of, root_page_of};

use crate::page::Page;
use crate::project::ProjectPage;
use crate::root::RootPage;
use crate::served::Served;
use index_names::NormalName;
use index_rules::{Fault, FileRow, NameRow};
use std::alloc::{AllocError, Global};

/// The root page, with the held names among these, in the order of the rows.
///
/// # Errors
///
/// `OutOfMemory`.
pub fn root_page(alloc: Global, rows: &[NameRow], served: Served) -> Result<Vec<u8>, Fault>
    ensures page { OkOrNoMemory result (λ text. text.items ≡ root_page_of served rows.now) }
{
    let mut text = Vec::new(alloc);
    let mut page = RootPage::new(served);
    append_page(&mut text, "", &mut page, rows)?;
    Ok(text)
}

/// The page of a project with these files, in the order of the rows.
///
/// # Errors
///
/// `OutOfMemory`.
pub fn project_page(
    alloc: Global,
    name: &NormalName,
    rows: &[FileRow],
    served: Served,
) -> Result<Vec<u8>, Fault>
    ensures page { OkOrNoMemory result (λ it. it.items ≡ project_page_of served name.now rows.now) }
{
    let mut text = Vec::new(alloc);
    let mut page = ProjectPage::new(alloc, served);
    append_page(&mut text, name.text(), &mut page, rows)?;
    Ok(text)
}

/// Appends the text that is still to be written of a page, by these rows.
fn append_page<P: Page>(
    out: &mut Vec<u8>,
    name: &str,
    page: &mut P,
    rows: &[P::Row],
) -> Result<(), AllocError>
    ensures { OnOk result (out.new.items ≡ out.old.items ++ P.rest page.old name.now rows.now) }
{
    for row in rows {
        append_row(out, name, page, row)?;
    }
    page.append_last(name, out)
}

/// Appends the text of a row.
fn append_row<P: Page>(
    out: &mut Vec<u8>,
    name: &str,
    page: &mut P,
    row: &P::Row,
) -> Result<(), AllocError>
    ensures { OnOk result ((rows : List P.Row) → out.new.items ++ P.rest page.new name.now rows
        ≡ out.old.items ++ P.rest page.old name.now (row.now ∷ rows)) }
{
    page.append_row(name, row, out)
}
