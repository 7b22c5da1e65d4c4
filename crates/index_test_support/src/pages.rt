//! Texts of pages for tests, with what all of them share once: in HTML (PEP 503) and in JSON (PEP 691). A length in
//! brackets makes a page the reply with it.

/// The page of all names in HTML, with a line for each link.
#[macro_export]
macro_rules! names_page {
    ($([$length:literal])? $($line:literal)*) => {
        $crate::names_front!($([$length])? $($line "\n")* "</body>\n</html>\n")
    };
}

/// The page of all names in HTML up to its links, and what follows.
#[macro_export]
macro_rules! names_front {
    ($([$length:literal])? $($part:literal)*) => {
        $crate::html_page!([$($length)?] "Simple index", $($part)*)
    };
}

/// The page of `frob` in HTML, with a line for each link.
#[macro_export]
macro_rules! project_page {
    ($([$length:literal])? $($line:literal)*) => {
        $crate::project_front!($([$length])? $($line "\n")* "</body>\n</html>\n")
    };
}

/// The page of `frob` in HTML up to its links, and what follows.
#[macro_export]
macro_rules! project_front {
    ($([$length:literal])? $($part:literal)*) => {
        $crate::html_page!([$($length)?] "Links for frob", "<h1>Links for frob</h1>\n" $($part)*)
    };
}

/// A page in HTML: its title, and what its body has.
#[macro_export]
macro_rules! html_page {
    ([$($length:literal)?] $title:literal, $($part:literal)*) => {
        $crate::page!(
            [$($length)?] "Content-Type: text/html",
            "<!DOCTYPE html>\n<html>\n<head>\n<meta charset=\"utf-8\">\n"
            "<meta name=\"pypi:repository-version\" content=\"1.0\">\n<title>"
            $title
            "</title>\n</head>\n<body>\n"
            $($part)*
        )
    };
}

/// The page of all names in JSON, by their entries.
#[macro_export]
macro_rules! names_json {
    ($([$length:literal])? $names:literal) => {
        $crate::page!(
            [$($length)?] "Content-Type: application/vnd.pypi.simple.v1+json",
            r#"{"meta":{"api-version":"1.1"},"projects":["# $names "]}"
        )
    };
}

/// The page of a project in JSON, by the entries of its files, its name and its versions.
#[macro_export]
macro_rules! project_json {
    ($([$length:literal])? $files:literal, $name:literal, $versions:literal) => {
        $crate::page!(
            [$($length)?] "Content-Type: application/vnd.pypi.simple.v1+json",
            r#"{"files":["# $files r#"],"meta":{"api-version":"1.1"},"name":""# $name
            r#"","versions":["# $versions "]}"
        )
    };
}

/// A page, or the reply with it.
#[macro_export]
macro_rules! page {
    ([] $kind:literal, $($part:literal)*) => {
        concat!($($part),*)
    };
    ([$length:literal] $kind:literal, $($part:literal)*) => {
        $crate::reply!("200 OK", [$kind], $length, $($part)*)
    };
}
