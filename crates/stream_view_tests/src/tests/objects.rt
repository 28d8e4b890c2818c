//! Time lines as JSON objects.

use super::{HOSTILE, ONE_CREATE, draws};
use stream_view::Form;

/// The object of one create.
const ONE_CREATE_JSON: &str =
    r#"{"added":1,"changed":0,"destroyed":0,"failed":0,"unended":0,"errors":0,"span":0,"busy":0,"work":0,"peak":0,"passed":0,"terraform":"1.9.0","summary":{"add":1,"change":0,"remove":0},"steps":[{"address":"random_pet.animal","action":"create","line":2,"begin":0,"length":0,"ended":true,"failed":false,"alone":0}]}
"#;

/// The object of a step without an end, in a stream without a version and without a summary.
const HOSTILE_JSON: &str =
    r#"{"added":0,"changed":0,"destroyed":0,"failed":0,"unended":1,"errors":0,"span":10000000,"busy":10000000,"work":10000000,"peak":1,"passed":0,"terraform":null,"summary":null,"steps":[{"address":"a[\"\u001b[31m</text>&\"]","action":"<b>","line":1,"begin":0,"length":10000000,"ended":false,"failed":false,"alone":10000000}]}
"#;

#[test]
fn one_create_as_an_object(rt: HostRuntime) {
    draws(&rt, rt.alloc(), Form::Json, ONE_CREATE, 1, ONE_CREATE_JSON);
}

#[test]
fn step_without_an_end_as_an_object(rt: HostRuntime) {
    draws(&rt, rt.alloc(), Form::Json, HOSTILE, 0, HOSTILE_JSON);
}
