//! The choice of a page's type by `Accept`.
use index_pages::Served;
use std::process::Abort;

/// In each line the value of one `Accept` header by which JSON is served: that of the example of PEP 691, "Version +
/// Format Selection", with spaces too, those of pip and of uv, and others.
const JSON: &str = "\
application/vnd.pypi.simple.v1+json, application/vnd.pypi.simple.v1+html;q=0.2, text/html;q=0.01
application/vnd.pypi.simple.v1+json, application/vnd.pypi.simple.v1+html; q=0.2, text/html; q=0.01
application/vnd.pypi.simple.v1+json, application/vnd.pypi.simple.v1+html; q=0.1, text/html; q=0.01
application/vnd.pypi.simple.v1+json
application/vnd.pypi.simple.latest+json
APPLICATION/VND.PYPI.SIMPLE.V1+JSON
application/vnd.pypi.simple.v2+json, application/vnd.pypi.simple.v1+json;q=0.9, text/html;q=0.1
application/*;q=0.5, application/vnd.pypi.simple.v1+html;q=0.4
text/html;q=0.998, application/vnd.pypi.simple.v1+json;q=0.999
*/*;q=0.1, application/vnd.pypi.simple.v1+json
application/vnd.pypi.simple.v1+json;q=0.2, application/vnd.pypi.simple.latest+json;q=0.9, text/html;q=0.5
text/html;q=0, application/vnd.pypi.simple.v1+html;q=0.000, */*
text/html;q=1.001, application/vnd.pypi.simple.v1+json;q=0.1
text/html;q=, application/vnd.pypi.simple.v1+json
text/html;q=0.1;q=1, application/vnd.pypi.simple.v1+json;q=0.2
,, ;q=1 ,application/vnd.pypi.simple.v1+json;q=0.001, text";

/// Values by which the HTML of the simple pages' own type is served. The last is an example of RFC 9110, section
/// 12.5.1.
const HTML: &str = "\
application/vnd.pypi.simple.v1+html
application/vnd.pypi.simple.latest+html
application/vnd.pypi.simple.v1+html, application/vnd.pypi.simple.v1+json
application/*
application/*;q=0.5, application/vnd.pypi.simple.latest+json;q=0.4
text/html;q=0, */*
text/*;q=0.3, text/plain;q=0.7, text/plain;format=flowed, text/plain;format=fixed;q=0.4, */*;q=0.5";

/// Values by which plain HTML is served: those of browsers, of pip before its version 22.2 and of curl, an example of
/// RFC 9110, section 12.5.1, and others.
const PLAIN_HTML: &str = "\
text/html,application/xhtml+xml,application/xml;q=0.9,*/*;q=0.8
text/html
*/*
text/plain; q=0.5, text/html, text/x-dvi; q=0.8, text/x-c
text/*
Text/HTML ; level=1\t;\tQ=0.001
application/vnd.pypi.simple.v1+json;q=1.000, text/html;q=1
text/html;q=1.5
text/html;q=0.1234
text/html;q=.5
text/html;q=-1
text/html;q=2
nothing
text/
/html
text/html/more

;q=1";

/// Values that allow none of the three types. The first is an example of RFC 9110, section 12.5.1.
const NONE: &str = "\
audio/*; q=0.2, audio/basic
*/*;q=0
*/*;q=0.000
text/html;q=0
image/png
application/vnd.pypi.simple.v2+json
application/json
application/vnd.pypi.simple.v1+json;q=0, application/vnd.pypi.simple.v1+html;q=0.0, text/*;q=0., */*;q=0";

fn assert_choice(rt: &impl Abort, values: &str, served: Option<Served>) {
    for value in values.lines() {
        assert!(rt; Served::choose(&[value.as_bytes()]) == served, "{value}");
    }
}

#[test]
fn one_header(rt: HostRuntime) {
    assert_choice(&rt, JSON, Some(Served::Json));
    assert_choice(&rt, HTML, Some(Served::Html));
    assert_choice(&rt, PLAIN_HTML, Some(Served::PlainHtml));
    assert_choice(&rt, NONE, None);
}

/// The items of all headers count, whatever their order; without a header any type is acceptable.
#[test]
fn some_headers(rt: HostRuntime) {
    let json = b"application/vnd.pypi.simple.v1+json;q=0.5".as_slice();
    let plain = b"text/html;q=0.4".as_slice();
    let other = b"image/png".as_slice();
    assert!(rt; Served::choose(&[]) == Some(Served::PlainHtml));
    assert!(rt; Served::choose(&[plain, json]) == Some(Served::Json));
    assert!(rt; Served::choose(&[json, plain]) == Some(Served::Json));
    assert!(rt; Served::choose(&[other, plain]) == Some(Served::PlainHtml));
    assert!(rt; Served::choose(&[other]) == None);
    assert!(rt; Served::choose(&[b"".as_slice(), json]) == Some(Served::Json));
}
