//! Scripts of changes and looks.
use super::assert_script;

/// alice owns flask and bob django, each with a file of its release 1.0, which is yanked.
const YANKS: &str = "\
claim Flask alice
upload Flask flask-1.0.tar.gz
yank Flask 1.0 broken
claim Django bob
upload Django django-1.0.tar.gz
yank Django 1.0 broken";

const FIRST_USER: &str = "\
bearer office = office office
bearer  = - -";

#[test]
fn the_first_user_bears_the_token(rt: HostRuntime) {
    assert_script(&rt, &[FIRST_USER]);
}

const NEW_TOKEN: &str = "\
add_user alice first
bearer first = alice alice
set_token alice second
bearer first = - -
bearer second = alice alice
bearer office = office office";

#[test]
fn a_new_token_replaces_the_old_one(rt: HostRuntime) {
    assert_script(&rt, &[NEW_TOKEN]);
}

const CLAIMS: &str = "\
claim Flask alice
claim Django bob
claim FLASK carol
set_quota Django 5
name flask = FLASK 1073741824
owners flask = carol
name django = Django 5
owners django = bob
held django = true
name numpy = -
owners numpy = -
held numpy = false";

#[test]
fn names_are_claimed_and_their_quotas_set(rt: HostRuntime) {
    assert_script(&rt, &[CLAIMS]);
}

const OWNERS: &str = "\
add_owner flask bob
add_owner flask alice
add_owner flask al
add_owner flask bob
add_owner flask 7up
add_owner django alice
owners flask = 7up al alice bob
remove_owner flask alice
owners flask = 7up al bob
owners django = alice";

#[test]
fn owners_are_in_byte_order(rt: HostRuntime) {
    assert_script(&rt, &[OWNERS]);
}

const CLAIMED_AGAIN: &str = "\
relinquish flask
name flask = -
owners flask = -
release flask 1.0 = true -
claim FLASK carol
name flask = FLASK 1073741824
owners flask = carol
release flask 1.0 = true -
release django 1.0 = true broken";

#[test]
fn a_claim_after_a_relinquish_has_no_yanks(rt: HostRuntime) {
    assert_script(&rt, &[YANKS, CLAIMED_AGAIN]);
}

const PROHIBITED: &str = "\
prohibit flask
name flask = prohibited
held flask = false
owners flask = -
release flask 1.0 = false -
file flask-1.0.tar.gz = flask 1.0 >=3.9 3 false
body flask-1.0.tar.gz = -";

#[test]
fn a_prohibited_name_has_nothing_but_deleted_files(rt: HostRuntime) {
    assert_script(&rt, &[YANKS, PROHIBITED]);
}

const NOT_PROHIBITED: &str = "\
prohibit flask
name django = Django 1073741824
owners django = bob
release django 1.0 = true broken
file django-1.0.tar.gz = django 1.0 >=3.9 3 true
body django-1.0.tar.gz = abc";

#[test]
fn a_prohibition_leaves_the_other_names(rt: HostRuntime) {
    assert_script(&rt, &[YANKS, NOT_PROHIBITED]);
}

const ALLOWED: &str = "\
prohibit flask
prohibit numpy
allow flask
name flask = -
name numpy = prohibited";

#[test]
fn an_allowed_name_is_free(rt: HostRuntime) {
    assert_script(&rt, &[ALLOWED]);
}

const RECORD: &str = "\
upload Flask Flask-1.0.tar.gz
file Flask-1.0.tar.gz = flask 1.0 >=3.9 3 true";

#[test]
fn an_upload_keeps_the_record(rt: HostRuntime) {
    assert_script(&rt, &[RECORD]);
}

const BYTES: &str = "\
body Flask-1.0.tar.gz = -
upload Flask Flask-1.0.tar.gz
file Flask-1.0.tar.gz = flask 1.0 >=3.9 3 true
body Flask-1.0.tar.gz = abc
body flask-1.0.tar.gz = -";

#[test]
fn an_upload_keeps_the_bytes(rt: HostRuntime) {
    assert_script(&rt, &[BYTES]);
}

const DELETED: &str = "\
delete flask-1.0.tar.gz
file flask-1.0.tar.gz = flask 1.0 >=3.9 3 false
body flask-1.0.tar.gz = -
file django-1.0.tar.gz = django 1.0 >=3.9 3 true
body django-1.0.tar.gz = abc
release flask 1.0 = false broken";

#[test]
fn a_deleted_file_stays_bound_to_its_bytes(rt: HostRuntime) {
    assert_script(&rt, &[YANKS, DELETED]);
}

const CHARGE: &str = "\
delete flask-1.0.tar.gz
charge flask = 3 1";

#[test]
fn a_deletion_writes_the_charge(rt: HostRuntime) {
    assert_script(&rt, &[YANKS, CHARGE]);
}

const BANNED: &str = "\
ban flask-1.0.tar.gz = false
ban_file Flask flask-1.0.tar.gz
ban flask-1.0.tar.gz = true
file flask-1.0.tar.gz = flask 1.0 >=3.9 3 false
body flask-1.0.tar.gz = -
charge flask = 0 0
release flask 1.0 = false broken
ban django-1.0.tar.gz = false
body django-1.0.tar.gz = abc";

#[test]
fn a_banned_file_is_deleted_and_stays_bound(rt: HostRuntime) {
    assert_script(&rt, &[YANKS, BANNED]);
}

const BANNED_LATER: &str = "\
delete flask-1.0.tar.gz
relinquish flask
ban_file flask-1.0.tar.gz
ban flask-1.0.tar.gz = true
file flask-1.0.tar.gz = flask 1.0 >=3.9 3 false
name flask = -";

#[test]
fn a_deleted_file_is_banned(rt: HostRuntime) {
    assert_script(&rt, &[YANKS, BANNED_LATER]);
}

const REASONS: &str = "\
yank flask 1.0 insecure
yank flask 1.00 typo
release flask 1.0 = true insecure
release flask 1.00 = false typo
release flask 2.0 = false -
release django 1.0 = true broken
release django 1.00 = false -";

#[test]
fn a_yank_keeps_the_last_reason(rt: HostRuntime) {
    assert_script(&rt, &[YANKS, REASONS]);
}

const UNYANKED: &str = "\
yank flask 2.0 typo
unyank flask 1.0
release flask 1.0 = true -
release flask 2.0 = false typo
release django 1.0 = true broken";

#[test]
fn an_unyanked_release_has_no_reason(rt: HostRuntime) {
    assert_script(&rt, &[YANKS, UNYANKED]);
}

const CLEARED: &str = "\
claim Flask carol
release flask 1.0 = true -
release django 1.0 = true broken";

#[test]
fn a_claim_clears_the_yanks(rt: HostRuntime) {
    assert_script(&rt, &[YANKS, CLEARED]);
}

const TRANSFERRED: &str = "\
claim Flask alice
open_case flask
case flask = 0
record_attempt flask
case flask = 1
transfer flask bob
case flask = -
owners flask = bob";

#[test]
fn a_transfer_ends_the_case(rt: HostRuntime) {
    assert_script(&rt, &[TRANSFERRED]);
}
