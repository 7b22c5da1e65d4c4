//! Texts, and what faults print.
use index_names::NameFault;
use index_retention::CaseFault;
use index_rules::{Fault, OpenFault};
use index_text::Text;
use std::alloc::AllocGlobal;
use std::fmt::Display;
use std::process::Abort;

fn text_of(rt: &(impl Abort + AllocGlobal), text: &str) -> Text {
    Text::new(String::from_str(rt.alloc(), text).expect(rt, text))
}

#[test]
fn texts_of_strings(rt: HostRuntime) {
    let text = text_of(&rt, "é-1");
    assert!(rt; text.as_str() == "é-1");
    assert!(rt; text == text_of(&rt, "é-1"));
    assert!(rt; text != text_of(&rt, "é-2"));
}

fn assert_printed(rt: &(impl Abort + AllocGlobal), fault: impl Display + Drop, want: &str) {
    let printed = format!(in rt.alloc(); "{fault}").expect(rt, want);
    assert_eq!(rt; printed.as_str(), want);
}

#[test]
fn printed_faults(rt: HostRuntime) {
    assert_printed(&rt, NameFault::BadName, "not a project name");
    let bad_file_name = "not a file name of a wheel or a source archive";
    assert_printed(&rt, NameFault::BadFileName, bad_file_name);
    assert_printed(&rt, NameFault::BadRelease, "not a version text");
    assert_printed(&rt, NameFault::OutOfMemory, "out of memory");
}

#[test]
fn texts_of_the_faults(rt: HostRuntime) {
    assert_printed(&rt, CaseFault::AttemptsFull, "the case has 1,000 attempts");
    let too_few = "too few attempts to reach the owner";
    assert_printed(&rt, CaseFault::TooFewAttempts, too_few);
    let too_early = "less than six weeks since the first attempt";
    assert_printed(&rt, CaseFault::TooEarly, too_early);
    let recent = "an upload in the last twelve months";
    assert_printed(&rt, CaseFault::RecentRelease, recent);
    let active = "the owner's home page may show activity";
    assert_printed(&rt, CaseFault::HomePageActive, active);
}

#[test]
fn faults_print_their_names(rt: HostRuntime) {
    assert_printed(&rt, Fault::OutOfMemory, "OutOfMemory");
    assert_printed(&rt, Fault::Store, "Store");
}

#[test]
fn reasons_not_to_open_print_their_names(rt: HostRuntime) {
    assert_printed(&rt, OpenFault::BadFirstUser, "BadFirstUser");
    assert_printed(&rt, OpenFault::NotEmpty, "NotEmpty");
    assert_printed(&rt, OpenFault::NotAnIndex, "NotAnIndex");
    assert_printed(&rt, OpenFault::OtherVersion, "OtherVersion");
    assert_printed(&rt, OpenFault::OutOfMemory, "OutOfMemory");
    assert_printed(&rt, OpenFault::Store, "Store");
}
