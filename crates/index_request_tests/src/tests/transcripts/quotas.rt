//! Quotas of names.
use super::{FROB, USERS, assert_transcript};

const QUOTAS: &str = r#"
{"at":10,"token":"office","do":"set_quota","name":"frob","quota":1099511627777}
= {"answer":"refused","code":12,"name":"QuotaTooLarge"}
{"at":10,"token":"office","do":"set_quota","name":"frob","quota":18446744073709551615}
= {"answer":"refused","code":12,"name":"QuotaTooLarge"}
{"at":10,"token":"office","do":"set_quota","name":"frob","quota":1099511627776}
= {"answer":"accepted"}
{"at":10,"token":"office","do":"set_quota","name":"Frob","quota":1099511627776}
= {"answer":"already"}
{"at":10,"token":"abc","do":"set_quota","name":"frob","quota":6}
= {"answer":"refused","code":3,"name":"NotOffice"}
{"at":10,"token":"office","do":"set_quota","name":"-","quota":6}
= {"answer":"refused","code":5,"name":"BadName"}
{"at":10,"token":"office","do":"set_quota","name":"frob-nest","quota":6}
= {"answer":"refused","code":17,"name":"NoProject"}
{"at":10,"token":"office","do":"set_quota","name":"frob-nest","quota":1099511627777}
= {"answer":"refused","code":12,"name":"QuotaTooLarge"}
{"at":10,"token":"office","do":"set_quota","name":"frob","quota":0}
= {"answer":"accepted"}
{"do":"standing","name":"frob"}
= {"case":null,"charge":0,"name":"frob","owners":["ann"],"quota":0,"shown":"frob","state":"held"}
"#;

#[test]
fn the_office_sets_quotas(rt: HostRuntime) {
    assert_transcript(&rt, &[USERS, FROB, QUOTAS]);
}

const FULL: &str = r#"
{"at":10,"token":"office","do":"set_quota","name":"frob","quota":6}
= {"answer":"accepted"}
{"at":11,"token":"abc","do":"upload","file":"frob-1.0.tar.gz","sha256":"<abc>","hex":"616263","requires_python":""}
= {"answer":"accepted"}
{"at":11,"token":"abc","do":"upload","file":"frob-1.1.tar.gz","sha256":"<abc>","hex":"616263","requires_python":""}
= {"answer":"accepted"}
{"at":11,"token":"abc","do":"upload","file":"frob-1.2.tar.gz","sha256":"<>","hex":"","requires_python":""}
= {"answer":"accepted"}
{"do":"standing","name":"frob"}
= {"case":null,"charge":6,"name":"frob","owners":["ann"],"quota":6,"shown":"frob","state":"held"}
{"at":11,"token":"abc","do":"upload","file":"frob-1.3.tar.gz","sha256":"<a>","hex":"61","requires_python":""}
= {"answer":"refused","code":26,"name":"OverQuota"}
{"at":11,"token":"abc","do":"upload","file":"frob-1.0.tar.gz","sha256":"<abc>","hex":"616263","requires_python":""}
= {"answer":"already"}
{"at":10,"token":"office","do":"set_quota","name":"frob","quota":5}
= {"answer":"refused","code":27,"name":"QuotaBelowCharge"}
{"do":"standing","name":"frob"}
= {"case":null,"charge":6,"name":"frob","owners":["ann"],"quota":6,"shown":"frob","state":"held"}
"#;

#[test]
fn files_keep_below_the_quota(rt: HostRuntime) {
    assert_transcript(&rt, &[USERS, FROB, FULL]);
}
