//! Names of wheels and source archives.
use index_names::{FileKind, FileName, NameFault};
use std::alloc::AllocGlobal;
use std::process::Abort;

/// In each line a wheel's name, its project and its release: files of the Python Package Index and of
/// download.pytorch.org, the example of PEP 427, "File name convention", and the shortest name.
const WHEELS: &str = "\
distribution-1.0-1-py27-none-any.whl distribution 1.0
a-1-a-a-a.whl a 1
foo_bar-1.0-1-py2.py3-none-any.whl foo-bar 1.0
numpy-2.1.3-cp313-cp313-manylinux_2_17_x86_64.manylinux2014_x86_64.whl numpy 2.1.3
numpy-1.26.4-cp312-cp312-win_amd64.whl numpy 1.26.4
cryptography-43.0.3-cp39-abi3-manylinux_2_28_x86_64.whl cryptography 43.0.3
cryptography-2.9.2-cp27-cp27mu-manylinux2010_x86_64.whl cryptography 2.9.2
setuptools-75.6.0-py3-none-any.whl setuptools 75.6.0
pip-24.3.1-py3-none-any.whl pip 24.3.1
pip-20.3.4-py2.py3-none-any.whl pip 20.3.4
zope.interface-7.1.1-cp312-cp312-macosx_11_0_arm64.whl zope-interface 7.1.1
ruamel.yaml-0.18.6-py3-none-any.whl ruamel-yaml 0.18.6
ruamel.yaml.clib-0.2.8-cp312-cp312-win_amd64.whl ruamel-yaml-clib 0.2.8
backports.zoneinfo-0.2.1-cp38-cp38-win_amd64.whl backports-zoneinfo 0.2.1
PyYAML-6.0.2-cp313-cp313-macosx_10_13_x86_64.whl pyyaml 6.0.2
Django-4.2.16-py3-none-any.whl django 4.2.16
Jinja2-3.1.2-py3-none-any.whl jinja2 3.1.2
MarkupSafe-3.0.2-cp313-cp313t-musllinux_1_2_aarch64.whl markupsafe 3.0.2
typing_extensions-4.12.2-py3-none-any.whl typing-extensions 4.12.2
python_dateutil-2.9.0.post0-py2.py3-none-any.whl python-dateutil 2.9.0.post0
PyQt5-5.15.4-cp36.cp37.cp38.cp39-abi3-manylinux2014_x86_64.whl pyqt5 5.15.4
PySide2-5.15.2.1-5.15.2-cp35.cp36.cp37.cp38.cp39.cp310-abi3-win_amd64.whl pyside2 5.15.2.1
torch-2.5.1+cu121-cp311-cp311-linux_x86_64.whl torch 2.5.1+cu121
jaraco.functools-4.1.0-py3-none-any.whl jaraco-functools 4.1.0";

/// In each line a source archive's name, its project and its release: files of the Python Package Index, the form of
/// PEP 625, "Specification", and the shortest name. Archives older than PEP 625 have hyphens and dots in the name.
const SOURCE_ARCHIVES: &str = "\
distribution-version.tar.gz distribution version
a-1.tar.gz a 1
foo-1-2.tar.gz foo-1 2
Foo-1.0RC1.tar.gz foo 1.0rc1
numpy-2.1.3.tar.gz numpy 2.1.3
cryptography-43.0.3.tar.gz cryptography 43.0.3
setuptools-75.6.0.tar.gz setuptools 75.6.0
pip-24.3.1.tar.gz pip 24.3.1
zope.interface-5.5.2.tar.gz zope-interface 5.5.2
ruamel.yaml-0.18.6.tar.gz ruamel-yaml 0.18.6
backports.zoneinfo-0.2.1.tar.gz backports-zoneinfo 0.2.1
python-dateutil-2.8.2.tar.gz python-dateutil 2.8.2
PyYAML-5.4.1.tar.gz pyyaml 5.4.1
Django-4.2.16.tar.gz django 4.2.16
scikit-learn-1.2.2.tar.gz scikit-learn 1.2.2
scikit_learn-1.5.2.tar.gz scikit-learn 1.5.2
charset-normalizer-3.3.2.tar.gz charset-normalizer 3.3.2
importlib_metadata-8.5.0.tar.gz importlib-metadata 8.5.0
google-cloud-storage-2.10.0.tar.gz google-cloud-storage 2.10.0
uWSGI-2.0.22.tar.gz uwsgi 2.0.22
pytest-8.0.0rc1.tar.gz pytest 8.0.0rc1
pytz-2024.2.tar.gz pytz 2024.2";

/// In each line a text that is not a file name. The first is empty.
const NO_FILE_NAMES: &str = "
a
.whl
.tar.gz
foo.tar.gz
-1.0.tar.gz
foo-.tar.gz
foo-1.0-.tar.gz
foo-1.0+.tar.gz
foo 2-1.0.tar.gz
é-1.0.tar.gz
foo-1.0.TAR.GZ
foo-1.0.zip
foo-1.0.tar.bz2
foo-1.0-py3.12.egg
foo-1.0.exe
foo-1.0-py3-none-any.WHL
foo-1.0-none-any.whl
foo-1.0-1-py3-none-any-more.whl
foo_bar-1.0-x1-py2.py3-none-any.whl
foo-1.0--py3-none-any.whl
foo-1.0-py3--any.whl
foo_-1.0-py3-none-any.whl
foo-1.0-py3-none-any+.whl";

/// Whether a name has this text, this project and this release.
fn has_texts(name: &FileName, text: &str, project: &str, release: &str) -> bool {
    name.text() == text && name.project().text() == project && name.release().text() == release
}

fn read(rt: &(impl Abort + AllocGlobal), text: &str) -> FileName {
    FileName::read(rt.alloc(), text.as_bytes()).expect(rt, text)
}

fn assert_reads(rt: &(impl Abort + AllocGlobal), line: &str, kind: FileKind) {
    let (text, names) = line.split_once(' ').expect(rt, line);
    let (project, release) = names.split_once(' ').expect(rt, line);
    let name = read(rt, text);
    let is_read = has_texts(&name, text, project, release) && name.kind() == kind;
    assert!(rt; is_read, "{line}");
}

#[test]
fn file_names(rt: HostRuntime) {
    for line in WHEELS.lines() {
        assert_reads(&rt, line, FileKind::Wheel);
    }
    for line in SOURCE_ARCHIVES.lines() {
        assert_reads(&rt, line, FileKind::Source);
    }
}

fn is_bad(rt: &impl AllocGlobal, bytes: &[u8]) -> bool {
    matches!(
        FileName::read(rt.alloc(), bytes),
        Err(NameFault::BadFileName)
    )
}

#[test]
fn no_file_names(rt: HostRuntime) {
    for line in NO_FILE_NAMES.lines() {
        assert!(rt; is_bad(&rt, line.as_bytes()), "{line}");
    }
}

/// The name of a wheel, of 255 bytes.
fn longest(rt: &(impl Abort + AllocGlobal)) -> Vec<u8> {
    let mut bytes = b"a-1-py3-none-".to_vec(rt.alloc()).expect(rt, "bytes");
    for _ in 0..238 {
        bytes.push(b'x').expect(rt, "bytes");
    }
    bytes.extend_from_slice(b".whl").expect(rt, "bytes");
    bytes
}

#[test]
fn longest_file_name(rt: HostRuntime) {
    let mut bytes = longest(&rt);
    let name = FileName::read(rt.alloc(), bytes.as_slice()).expect(&rt, "a file name");
    assert_eq!(rt; name.text().len(), 255);
    bytes.insert(0, b'a').expect(&rt, "bytes");
    assert!(rt; is_bad(&rt, bytes.as_slice()));
}

/// Letter case makes two file names of one project.
#[test]
fn two_file_names(rt: HostRuntime) {
    let upper = read(&rt, "Frob-1.0.tar.gz");
    let lower = read(&rt, "frob-1.0.tar.gz");
    assert!(rt; upper != lower && upper < lower);
    assert!(rt; upper.project() == lower.project());
    assert!(rt; upper.release() == lower.release());
}

#[test]
fn a_copy_is_equal(rt: HostRuntime) {
    let name = read(&rt, "frob-1.0.tar.gz");
    let copy = name.clone().expect(&rt, "a copy");
    assert!(rt; copy == name && copy.kind() == FileKind::Source);
}
