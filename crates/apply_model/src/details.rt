//! Parts of a plan and a script that only Terraform's form of a stream shows.

pub mod change_details;
pub mod importing;
pub mod note;
pub mod output;
pub mod previous_resource;
pub mod reason;
