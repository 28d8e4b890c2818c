//! Checks of a script against the changes of its plan.

pub mod first_named;
pub mod planned;
pub mod violations;
pub mod waiting;
pub mod waits;
