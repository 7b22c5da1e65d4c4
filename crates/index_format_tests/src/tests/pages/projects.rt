//! The page of a project.
use super::{assert_files, file_row, name, text};
use index_pages::Served;
use index_rules::FileRow;
use index_test_support::{project_json, project_page};
use std::alloc::AllocGlobal;
use std::process::Abort;

/// The page of `frob` with these files is this text.
fn assert_page(rt: &(impl Abort + AllocGlobal), rows: &[FileRow], served: Served, expected: &str) {
    let frob = name(rt, "frob");
    assert_files(rt, &frob, rows, served, expected);
}

const NO_FILES: &str = project_page!();

const NO_FILES_IN_JSON: &str = project_json!("", "frob", "");

#[test]
fn no_files(rt: HostRuntime) {
    assert_page(&rt, &[], Served::PlainHtml, NO_FILES);
    assert_page(&rt, &[], Served::Html, NO_FILES);
    assert_page(&rt, &[], Served::Json, NO_FILES_IN_JSON);
}

const ONE_FILE: &str = project_page!(
    r#"<a href="/files/frob/frob-1.0.tar.gz#sha256=ba7816bf8f01cfea414140de5dae2223b00361a396177a9cb410ff61f20015ad">frob-1.0.tar.gz</a><br>"#
);

const ONE_FILE_IN_JSON: &str = project_json!(
    r#"{"filename":"frob-1.0.tar.gz","hashes":{"sha256":"ba7816bf8f01cfea414140de5dae2223b00361a396177a9cb410ff61f20015ad"},"size":3,"url":"/files/frob/frob-1.0.tar.gz"}"#,
    "frob",
    r#""1.0""#
);

#[test]
fn one_file(rt: HostRuntime) {
    let rows = [file_row(&rt, "frob-1.0.tar.gz", "", None)];
    assert_page(&rt, &rows, Served::PlainHtml, ONE_FILE);
    assert_page(&rt, &rows, Served::Html, ONE_FILE);
    assert_page(&rt, &rows, Served::Json, ONE_FILE_IN_JSON);
}

/// Two files of one release and one of another, whose name has another letter case.
const VERSIONS: &str = project_json!(
    r#"{"filename":"frob-1.0-py3-none-any.whl","hashes":{"sha256":"ba7816bf8f01cfea414140de5dae2223b00361a396177a9cb410ff61f20015ad"},"size":3,"url":"/files/frob/frob-1.0-py3-none-any.whl"},{"filename":"frob-1.0.tar.gz","hashes":{"sha256":"ba7816bf8f01cfea414140de5dae2223b00361a396177a9cb410ff61f20015ad"},"size":3,"url":"/files/frob/frob-1.0.tar.gz"},{"filename":"frob-1.0RC1.tar.gz","hashes":{"sha256":"ba7816bf8f01cfea414140de5dae2223b00361a396177a9cb410ff61f20015ad"},"size":3,"url":"/files/frob/frob-1.0RC1.tar.gz"}"#,
    "frob",
    r#""1.0","1.0rc1""#
);

/// The versions are each release once and in byte order, whatever the order of the files.
const VERSIONS_IN_ORDER: &str = project_json!(
    r#"{"filename":"frob-9.tar.gz","hashes":{"sha256":"ba7816bf8f01cfea414140de5dae2223b00361a396177a9cb410ff61f20015ad"},"size":3,"url":"/files/frob/frob-9.tar.gz"},{"filename":"frob-10.tar.gz","hashes":{"sha256":"ba7816bf8f01cfea414140de5dae2223b00361a396177a9cb410ff61f20015ad"},"size":3,"url":"/files/frob/frob-10.tar.gz"},{"filename":"frob-9-py3-none-any.whl","hashes":{"sha256":"ba7816bf8f01cfea414140de5dae2223b00361a396177a9cb410ff61f20015ad"},"size":3,"url":"/files/frob/frob-9-py3-none-any.whl"}"#,
    "frob",
    r#""10","9""#
);

#[test]
fn versions(rt: HostRuntime) {
    let rows = [
        file_row(&rt, "frob-1.0-py3-none-any.whl", "", None),
        file_row(&rt, "frob-1.0.tar.gz", "", None),
        file_row(&rt, "frob-1.0RC1.tar.gz", "", None),
    ];
    assert_page(&rt, &rows, Served::Json, VERSIONS);
    let rows = [
        file_row(&rt, "frob-9.tar.gz", "", None),
        file_row(&rt, "frob-10.tar.gz", "", None),
        file_row(&rt, "frob-9-py3-none-any.whl", "", None),
    ];
    assert_page(&rt, &rows, Served::Json, VERSIONS_IN_ORDER);
}

/// A wheel and a source archive of a release that is yanked for this reason.
fn yanked_rows(rt: &(impl Abort + AllocGlobal), reason: &str) -> [FileRow; 2] {
    [
        file_row(rt, "frob-1.0-py3-none-any.whl", "", Some(text(rt, reason))),
        file_row(rt, "frob-1.0.tar.gz", "", Some(text(rt, reason))),
    ]
}

const YANKED: &str = project_page!(
    r#"<a href="/files/frob/frob-1.0-py3-none-any.whl#sha256=ba7816bf8f01cfea414140de5dae2223b00361a396177a9cb410ff61f20015ad" data-yanked="&lt;3 &amp; &quot;x&quot;">frob-1.0-py3-none-any.whl</a><br>"#
    r#"<a href="/files/frob/frob-1.0.tar.gz#sha256=ba7816bf8f01cfea414140de5dae2223b00361a396177a9cb410ff61f20015ad" data-yanked="&lt;3 &amp; &quot;x&quot;">frob-1.0.tar.gz</a><br>"#
);

const YANKED_IN_JSON: &str = project_json!(
    r#"{"filename":"frob-1.0-py3-none-any.whl","hashes":{"sha256":"ba7816bf8f01cfea414140de5dae2223b00361a396177a9cb410ff61f20015ad"},"size":3,"url":"/files/frob/frob-1.0-py3-none-any.whl","yanked":"<3 & \"x\""},{"filename":"frob-1.0.tar.gz","hashes":{"sha256":"ba7816bf8f01cfea414140de5dae2223b00361a396177a9cb410ff61f20015ad"},"size":3,"url":"/files/frob/frob-1.0.tar.gz","yanked":"<3 & \"x\""}"#,
    "frob",
    r#""1.0""#
);

const YANKED_FOR_NO_REASON: &str = project_page!(
    r#"<a href="/files/frob/frob-1.0-py3-none-any.whl#sha256=ba7816bf8f01cfea414140de5dae2223b00361a396177a9cb410ff61f20015ad" data-yanked="">frob-1.0-py3-none-any.whl</a><br>"#
    r#"<a href="/files/frob/frob-1.0.tar.gz#sha256=ba7816bf8f01cfea414140de5dae2223b00361a396177a9cb410ff61f20015ad" data-yanked="">frob-1.0.tar.gz</a><br>"#
);

const YANKED_FOR_NO_REASON_IN_JSON: &str = project_json!(
    r#"{"filename":"frob-1.0-py3-none-any.whl","hashes":{"sha256":"ba7816bf8f01cfea414140de5dae2223b00361a396177a9cb410ff61f20015ad"},"size":3,"url":"/files/frob/frob-1.0-py3-none-any.whl","yanked":true},{"filename":"frob-1.0.tar.gz","hashes":{"sha256":"ba7816bf8f01cfea414140de5dae2223b00361a396177a9cb410ff61f20015ad"},"size":3,"url":"/files/frob/frob-1.0.tar.gz","yanked":true}"#,
    "frob",
    r#""1.0""#
);

#[test]
fn yanked_files(rt: HostRuntime) {
    let rows = yanked_rows(&rt, "<3 & \"x\"");
    assert_page(&rt, &rows, Served::PlainHtml, YANKED);
    assert_page(&rt, &rows, Served::Json, YANKED_IN_JSON);
    let rows = yanked_rows(&rt, "");
    assert_page(&rt, &rows, Served::Html, YANKED_FOR_NO_REASON);
    assert_page(&rt, &rows, Served::Json, YANKED_FOR_NO_REASON_IN_JSON);
}

/// The Python versions of the examples of PEP 503 and PEP 440, and each byte that one of the two pages escapes.
const REQUIRES: &str = project_page!(
    r#"<a href="/files/frob/frob-1.tar.gz#sha256=ba7816bf8f01cfea414140de5dae2223b00361a396177a9cb410ff61f20015ad" data-requires-python="&gt;=3">frob-1.tar.gz</a><br>"#
    r#"<a href="/files/frob/frob-2.tar.gz#sha256=ba7816bf8f01cfea414140de5dae2223b00361a396177a9cb410ff61f20015ad" data-requires-python="~= 0.9, &gt;= 1.0, != 1.3.4.*, &lt; 2.0">frob-2.tar.gz</a><br>"#
    r#"<a href="/files/frob/frob-3.tar.gz#sha256=ba7816bf8f01cfea414140de5dae2223b00361a396177a9cb410ff61f20015ad" data-requires-python="&lt;&amp;&gt;&quot;'\/é&amp;lt;" data-yanked="broken">frob-3.tar.gz</a><br>"#
);

const REQUIRES_IN_JSON: &str = project_json!(
    r#"{"filename":"frob-1.tar.gz","hashes":{"sha256":"ba7816bf8f01cfea414140de5dae2223b00361a396177a9cb410ff61f20015ad"},"requires-python":">=3","size":3,"url":"/files/frob/frob-1.tar.gz"},{"filename":"frob-2.tar.gz","hashes":{"sha256":"ba7816bf8f01cfea414140de5dae2223b00361a396177a9cb410ff61f20015ad"},"requires-python":"~= 0.9, >= 1.0, != 1.3.4.*, < 2.0","size":3,"url":"/files/frob/frob-2.tar.gz"},{"filename":"frob-3.tar.gz","hashes":{"sha256":"ba7816bf8f01cfea414140de5dae2223b00361a396177a9cb410ff61f20015ad"},"requires-python":"<&>\"'\\/é&lt;","size":3,"url":"/files/frob/frob-3.tar.gz","yanked":"broken"}"#,
    "frob",
    r#""1","2","3""#
);

#[test]
fn requires_python(rt: HostRuntime) {
    let rows = [
        file_row(&rt, "frob-1.tar.gz", ">=3", None),
        file_row(
            &rt,
            "frob-2.tar.gz",
            "~= 0.9, >= 1.0, != 1.3.4.*, < 2.0",
            None,
        ),
        file_row(
            &rt,
            "frob-3.tar.gz",
            "<&>\"'\\/é&lt;",
            Some(text(&rt, "broken")),
        ),
    ];
    assert_page(&rt, &rows, Served::PlainHtml, REQUIRES);
    assert_page(&rt, &rows, Served::Json, REQUIRES_IN_JSON);
}

/// The example of PEP 691, "Project Detail", with the addresses and digests of this index.
const HOLYGRAIL: &str = project_json!(
    r#"{"filename":"holygrail-1.0-py3-none-any.whl","hashes":{"sha256":"ba7816bf8f01cfea414140de5dae2223b00361a396177a9cb410ff61f20015ad"},"requires-python":">=3.7","size":3,"url":"/files/holygrail/holygrail-1.0-py3-none-any.whl"},{"filename":"holygrail-1.0.tar.gz","hashes":{"sha256":"ba7816bf8f01cfea414140de5dae2223b00361a396177a9cb410ff61f20015ad"},"requires-python":">=3.7","size":3,"url":"/files/holygrail/holygrail-1.0.tar.gz","yanked":"Had a vulnerability"}"#,
    "holygrail",
    r#""1.0""#
);

#[test]
fn example_of_a_project(rt: HostRuntime) {
    let reason = text(&rt, "Had a vulnerability");
    let rows = [
        file_row(&rt, "holygrail-1.0-py3-none-any.whl", ">=3.7", None),
        file_row(&rt, "holygrail-1.0.tar.gz", ">=3.7", Some(reason)),
    ];
    let holygrail = name(&rt, "HolyGrail");
    assert_files(&rt, &holygrail, &rows, Served::Json, HOLYGRAIL);
}
