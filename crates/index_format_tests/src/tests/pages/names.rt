//! The page of the names.
use super::{assert_names, held, name, text};
use index_pages::Served;
use index_rules::{NameRecord, NameRow, Project};
use index_test_support::{names_json, names_page};

const NO_NAMES: &str = names_page!();

const NAMES: &str = names_page!(
    r#"<a href="/simple/frob-nest/">Frob._-Nest</a><br>"#
    r#"<a href="/simple/spamspamspam/">spamspamspam</a><br>"#
);

const NO_NAMES_IN_JSON: &str = names_json!("");

const NAMES_IN_JSON: &str = names_json!(r#"{"name":"Frob._-Nest"},{"name":"spamspamspam"}"#);

#[test]
fn no_names(rt: HostRuntime) {
    assert_eq!(rt; NO_NAMES.len(), 164);
    assert_eq!(rt; NO_NAMES_IN_JSON.len(), 44);
    assert_names(&rt, &[], Served::PlainHtml, NO_NAMES);
    assert_names(&rt, &[], Served::Html, NO_NAMES);
    assert_names(&rt, &[], Served::Json, NO_NAMES_IN_JSON);
}

/// The example of PEP 691, "Project List", with the version of this index.
const EXAMPLE: &str = names_json!(r#"{"name":"Frob"},{"name":"spamspamspam"}"#);

#[test]
fn example_names(rt: HostRuntime) {
    let rows = [held(&rt, "Frob"), held(&rt, "spamspamspam")];
    assert_names(&rt, &rows, Served::Json, EXAMPLE);
}

/// Prohibited names are skipped, at any place.
#[test]
fn some_names(rt: HostRuntime) {
    let banned = NameRow {
        name: name(&rt, "aaa"),
        record: NameRecord::Prohibited,
    };
    let last = banned.clone().expect(&rt, "a copy");
    let rows = [
        banned,
        held(&rt, "Frob._-Nest"),
        held(&rt, "spamspamspam"),
        last,
    ];
    assert_names(&rt, &rows, Served::PlainHtml, NAMES);
    assert_names(&rt, &rows, Served::Html, NAMES);
    assert_names(&rt, &rows, Served::Json, NAMES_IN_JSON);
}

const ESCAPED_NAME: &str = names_page!(r#"<a href="/simple/frob/">&lt;&amp;&gt;&quot;'\é</a><br>"#);

const ESCAPED_NAME_IN_JSON: &str = names_json!(r#"{"name":"<&>\"'\\é"}"#);

/// A spelling with each byte that one of the two pages escapes. No claim accepts one.
#[test]
fn escaped_name(rt: HostRuntime) {
    let shown = text(&rt, "<&>\"'\\é");
    let project = Project::from_parts(shown, 0, 0, 0, None).expect(&rt, "a project");
    let rows = [NameRow {
        name: name(&rt, "frob"),
        record: NameRecord::Held(project),
    }];
    assert_names(&rt, &rows, Served::PlainHtml, ESCAPED_NAME);
    assert_names(&rt, &rows, Served::Json, ESCAPED_NAME_IN_JSON);
}
