//! The parts of HTML pages.
ghost use Rattle.index_pages.specs.Html.{attribute, bottom, escape, escape_byte, file_anchor, name_anchor, project_top, reference, requires_attribute, root_top, yanked_attribute};
ghost use Rattle.index_pages.specs.Pieces.{Adds};

use crate::pieces::{Pieces, append};
use index_digest::Digest256;
use index_rules::FileRow;
use index_text::Text;
use std::alloc::AllocError;

/// The text before a page's title.
const HEAD: &[u8] =
    b"<!DOCTYPE html>\n<html>\n<head>\n<meta charset=\"utf-8\">\n<meta name=\"pypi:repository-version\" content=\"1.0\">\n<title>";

/// Appends the text before the files of a project.
#[tactic(auto, unfolding(crate::specs::Html::project_top, crate::specs::Html::head))]
pub fn append_project_top<O: Pieces>(out: &mut O, project: &[u8]) -> Result<(), AllocError>
    ensures { Adds O.holds out.old out.new result (project_top project.now) }
{
    append(
        out,
        &[
            HEAD,
            b"Links for ",
            project,
            b"</title>\n</head>\n<body>\n<h1>Links for ",
            project,
            b"</h1>\n",
        ],
    )
}

/// Appends the text before the names.
#[tactic(auto, unfolding(crate::specs::Html::root_top, crate::specs::Html::head))]
pub fn append_root_top<O: Pieces>(out: &mut O) -> Result<(), AllocError>
    ensures { Adds O.holds out.old out.new result root_top }
{
    append(out, &[HEAD, b"Simple index</title>\n</head>\n<body>\n"])
}

/// Appends the text behind the rows.
pub fn append_bottom<O: Pieces>(out: &mut O) -> Result<(), AllocError>
    ensures { Adds O.holds out.old out.new result bottom }
{
    append(out, &[b"</body>\n</html>\n"])
}

/// Appends the line of a held name.
pub fn append_name<O: Pieces>(out: &mut O, name: &[u8], shown: &[u8]) -> Result<(), AllocError>
    ensures { Adds O.holds out.old out.new result (name_anchor name.now shown.now) }
{
    append(out, &[b"<a href=\"/simple/", name, b"/\">"])?;
    append_escaped(out, shown)?;
    append(out, &[b"</a><br>\n"])?;
    Ok(())
}

/// Appends the line of a file.
pub fn append_file<O: Pieces>(out: &mut O, project: &[u8], row: &FileRow) -> Result<(), AllocError>
    ensures { Adds O.holds out.old out.new result (file_anchor project.now row.now) }
{
    append_reference(out, project, row.file.text().as_bytes(), &row.digest)?;
    append_requires(out, row.requires_python.as_str().as_bytes())?;
    append_yanked(out, &row.yanked)?;
    append(out, &[b">", row.file.text().as_bytes(), b"</a><br>\n"])?;
    Ok(())
}

/// Appends the beginning of an anchor, up to the reference to a file with its digest.
fn append_reference<O: Pieces>(
    out: &mut O,
    project: &[u8],
    file: &[u8],
    digest: &Digest256,
) -> Result<(), AllocError>
    ensures { Adds O.holds out.old out.new result (reference project.now file.now digest.now) }
{
    let mut digits = [0u8; 64];
    digest.hex_into(&mut digits);
    append(out, &[b"<a href=\"/files/", project, b"/"])?;
    append(out, &[file, b"#sha256="])?;
    append(out, &[&digits, b"\""])?;
    Ok(())
}

/// Appends the attribute `data-requires-python`, or nothing if its value is empty.
fn append_requires<O: Pieces>(out: &mut O, requires_python: &[u8]) -> Result<(), AllocError>
    ensures { Adds O.holds out.old out.new result (requires_attribute requires_python.now) }
{
    if requires_python.is_empty() {
        return Ok(());
    }
    append_attribute(out, b"data-requires-python", requires_python)
}

/// Appends the attribute `data-yanked` with the reason, or nothing if the release is not yanked.
fn append_yanked<O: Pieces>(out: &mut O, yanked: &Option<Text>) -> Result<(), AllocError>
    ensures { Adds O.holds out.old out.new result (yanked_attribute yanked.now) }
{
    match yanked {
        Some(reason) => append_attribute(out, b"data-yanked", reason.as_str().as_bytes()),
        None => Ok(()),
    }
}

/// Appends a space, the name, and the value escaped and in quotes.
fn append_attribute<O: Pieces>(out: &mut O, name: &[u8], value: &[u8]) -> Result<(), AllocError>
    ensures { Adds O.holds out.old out.new result (attribute name.now value.now) }
{
    append(out, &[b" ", name, b"=\""])?;
    append_escaped(out, value)?;
    append(out, &[b"\""])?;
    Ok(())
}

/// Appends a text or an attribute's value, with `&`, `<`, `>` and `"` escaped.
#[tactic(auto, unfolding(crate::specs::Html::escape))]
pub fn append_escaped<O: Pieces>(out: &mut O, text: &[u8]) -> Result<(), AllocError>
    ensures { Adds O.holds out.old out.new result (escape text.now) }
{
    for byte in text {
        append_escaped_byte(out, *byte)?;
    }
    Ok(())
}

/// Appends a byte, or its escape in HTML.
fn append_escaped_byte<O: Pieces>(out: &mut O, byte: u8) -> Result<(), AllocError>
    ensures { Adds O.holds out.old out.new result (escape_byte byte) }
{
    match byte {
        b'&' => out.put(b"&amp;"),
        b'<' => out.put(b"&lt;"),
        b'>' => out.put(b"&gt;"),
        b'"' => out.put(b"&quot;"),
        _ => out.put(&[byte]),
    }
}
