//! The readers of plans and scripts.

use crate::printing::{answer, begin, leaked};
use apply_plan::{Plan, read_plan, read_script};
use std::alloc::Global;
use std::io;
use std::io::ErrorKind;

/// A plan with one create.
pub const ONE_CREATE: &str =
    r#"{"format_version":"1.2","terraform_version":"1.9.0","resource_changes":[{"address":"random_pet.animal","mode":"managed","type":"random_pet","name":"animal","change":{"actions":["create"]}}]}"#;

/// The script of the plan.
pub const ONE_SCRIPT: &str =
    r#"{"changes":[{"address":"random_pet.animal","steps":[{"seconds":12,"id":"brave-otter","warning":{"summary":"slow","detail":"The provider is slow."},"provisioners":[{"provisioner":"file","seconds":0},{"provisioner":"local-exec","seconds":1,"output":["hi","there"],"failed":{"summary":"boom"}},{"provisioner":"file","seconds":2}]}]}]}"#;

/// A plan with a module whose key is quoted.
const QUOTED: &str =
    r#"{"format_version":"1.2","terraform_version":"1.9.0","resource_changes":[{"address":"module.a[\"x.y\"].aws_instance.web[\"k\\\"1\"]","module_address":"module.a[\"x.y\"]","mode":"managed","type":"aws_instance","name":"web","index":"k\"1","change":{"actions":["create"]}}]}"#;

/// A plan that names one object twice.
const REPEATED: &str =
    r#"{"format_version":"1.2","resource_changes":[{"address":"a_b.c","mode":"managed","type":"a_b","name":"c","change":{"actions":["create"]}},{"address":"a_b.c","mode":"managed","type":"a_b","name":"c","change":{"actions":["no-op"]}}]}"#;

/// A plan that must be accepted.
pub fn plan_of(alloc: Global, text: &str) -> io::Result<&'static Plan> {
    match read_plan(alloc, text.as_bytes()) {
        Ok(plan) => Ok(leaked(alloc, plan)?),
        Err(_) => Err(io::Error::from(ErrorKind::OutOfMemory)),
    }
}

/// Reads a plan.
pub fn quoted_plan(rt: &impl Print, alloc: Global) -> io::Result<()> {
    begin(rt)?;
    answer(rt, &read_plan(alloc, QUOTED.as_bytes()))
}

/// Reads a plan that repeats a change.
pub fn repeated_change(rt: &impl Print, alloc: Global) -> io::Result<()> {
    begin(rt)?;
    answer(rt, &read_plan(alloc, REPEATED.as_bytes()))
}

/// Reads a script.
pub fn script(rt: &impl Print, alloc: Global) -> io::Result<()> {
    let plan = plan_of(alloc, ONE_CREATE)?;
    begin(rt)?;
    answer(rt, &read_script(alloc, ONE_SCRIPT.as_bytes(), plan))
}
