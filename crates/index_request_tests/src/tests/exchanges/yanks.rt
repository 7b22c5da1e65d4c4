//! Pages of a project whose release is yanked (PEP 592).
use super::{ACCEPTED, ALREADY, CREATED, FILE, FROB, USERS, assert_exchanges};
use index_test_support::{json_reply, look, post, project_json, project_page};

const IN_HTML: &str = look!("GET /simple/frob/");

const IN_JSON: &str = look!("GET /simple/frob/" "Accept: application/vnd.pypi.simple.v1+json");

/// A reason, with characters that HTML escapes.
const YANKED: &[[&str; 2]] = &[
    [YANK, ACCEPTED],
    [IN_HTML, YANKED_IN_HTML],
    [IN_JSON, YANKED_IN_JSON],
];

const YANK: &str = post!(
    "abc",
    "65",
    r#"{"do":"yank","name":"frob","release":"1.0","reason":"<3 & \"x\""}"#
);

const YANKED_IN_HTML: &str = project_page!(["364"]
    r#"<a href="/files/frob/frob-1.0.tar.gz#sha256=ba7816bf8f01cfea414140de5dae2223b00361a396177a9cb410ff61f20015ad" data-yanked="&lt;3 &amp; &quot;x&quot;">frob-1.0.tar.gz</a><br>"#
);

const YANKED_IN_JSON: &str =
    project_json!(["258"] r#"{"filename":"frob-1.0.tar.gz","hashes":{"sha256":"ba7816bf8f01cfea414140de5dae2223b00361a396177a9cb410ff61f20015ad"},"size":3,"url":"/files/frob/frob-1.0.tar.gz","yanked":"<3 & \"x\""}"#,
        "frob",
        r#""1.0""#);

/// Then again without a reason.
const YANKED_AGAIN: &[[&str; 2]] = &[
    [YANK_AGAIN, ACCEPTED],
    [IN_HTML, YANKED_AGAIN_IN_HTML],
    [IN_JSON, YANKED_AGAIN_IN_JSON],
];

const YANK_AGAIN: &str = post!(
    "abc",
    "55",
    r#"{"do":"yank","name":"frob","release":"1.0","reason":""}"#
);

const YANKED_AGAIN_IN_HTML: &str = project_page!(["339"]
    r#"<a href="/files/frob/frob-1.0.tar.gz#sha256=ba7816bf8f01cfea414140de5dae2223b00361a396177a9cb410ff61f20015ad" data-yanked="">frob-1.0.tar.gz</a><br>"#
);

const YANKED_AGAIN_IN_JSON: &str =
    project_json!(["250"] r#"{"filename":"frob-1.0.tar.gz","hashes":{"sha256":"ba7816bf8f01cfea414140de5dae2223b00361a396177a9cb410ff61f20015ad"},"size":3,"url":"/files/frob/frob-1.0.tar.gz","yanked":true}"#,
        "frob",
        r#""1.0""#);

/// A wheel of the release is yanked from the first. It is listed before the source archive.
const WITH_WHEEL: &[[&str; 2]] = &[
    [PUT_WHEEL, CREATED],
    [IN_HTML, WITH_WHEEL_IN_HTML],
    [IN_JSON, WITH_WHEEL_IN_JSON],
];

const PUT_WHEEL: &str = put!("/files/frob/frob-1.0-py3-none-any.whl" "X-Index-Token: abc");

const WITH_WHEEL_IN_HTML: &str = project_page!(["508"]
    r#"<a href="/files/frob/frob-1.0-py3-none-any.whl#sha256=ba7816bf8f01cfea414140de5dae2223b00361a396177a9cb410ff61f20015ad" data-yanked="">frob-1.0-py3-none-any.whl</a><br>"#
    r#"<a href="/files/frob/frob-1.0.tar.gz#sha256=ba7816bf8f01cfea414140de5dae2223b00361a396177a9cb410ff61f20015ad" data-yanked="">frob-1.0.tar.gz</a><br>"#
);

const WITH_WHEEL_IN_JSON: &str =
    project_json!(["447"] r#"{"filename":"frob-1.0-py3-none-any.whl","hashes":{"sha256":"ba7816bf8f01cfea414140de5dae2223b00361a396177a9cb410ff61f20015ad"},"size":3,"url":"/files/frob/frob-1.0-py3-none-any.whl","yanked":true},{"filename":"frob-1.0.tar.gz","hashes":{"sha256":"ba7816bf8f01cfea414140de5dae2223b00361a396177a9cb410ff61f20015ad"},"size":3,"url":"/files/frob/frob-1.0.tar.gz","yanked":true}"#,
        "frob",
        r#""1.0""#);

/// Then no release is yanked.
const UNYANKED: &[[&str; 2]] = &[
    [UNYANK, ACCEPTED],
    [IN_HTML, UNYANKED_IN_HTML],
    [IN_JSON, UNYANKED_IN_JSON],
    [UNYANK, ALREADY],
    [UNYANK_OTHER, NO_RELEASE],
];

const UNYANK: &str = post!(
    "abc",
    "45",
    r#"{"do":"unyank","name":"frob","release":"1.0"}"#
);

const UNYANKED_IN_HTML: &str = project_page!(["478"]
    r#"<a href="/files/frob/frob-1.0-py3-none-any.whl#sha256=ba7816bf8f01cfea414140de5dae2223b00361a396177a9cb410ff61f20015ad">frob-1.0-py3-none-any.whl</a><br>"#
    r#"<a href="/files/frob/frob-1.0.tar.gz#sha256=ba7816bf8f01cfea414140de5dae2223b00361a396177a9cb410ff61f20015ad">frob-1.0.tar.gz</a><br>"#
);

const UNYANKED_IN_JSON: &str =
    project_json!(["419"] r#"{"filename":"frob-1.0-py3-none-any.whl","hashes":{"sha256":"ba7816bf8f01cfea414140de5dae2223b00361a396177a9cb410ff61f20015ad"},"size":3,"url":"/files/frob/frob-1.0-py3-none-any.whl"},{"filename":"frob-1.0.tar.gz","hashes":{"sha256":"ba7816bf8f01cfea414140de5dae2223b00361a396177a9cb410ff61f20015ad"},"size":3,"url":"/files/frob/frob-1.0.tar.gz"}"#,
        "frob",
        r#""1.0""#);

const UNYANK_OTHER: &str = post!(
    "abc",
    "43",
    r#"{"do":"unyank","name":"frob","release":"7"}"#
);

const NO_RELEASE: &str = json_reply!(
    "404 Not Found",
    "49",
    r#"{"answer":"refused","code":23,"name":"NoRelease"}"#
);

#[test]
fn a_yanked_release_is_shown_so(rt: HostRuntime) {
    let parts = [
        USERS,
        FROB,
        FILE,
        YANKED,
        YANKED_AGAIN,
        WITH_WHEEL,
        UNYANKED,
    ];
    assert_exchanges(&rt, &parts);
}
