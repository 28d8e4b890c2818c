//! The sizes of the inputs.

/// How many bytes the plan and the script have. Of an input that is too large, only a part is
/// stored.
#[derive(Clone, Copy)]
pub struct InputSizes {
    pub plan: u64,
    /// 0 without a script.
    pub script: u64,
}

impl InputSizes {
    /// Returns the sizes of inputs that are stored whole.
    pub fn of(plan: &[u8], script: Option<&[u8]>) -> InputSizes {
        InputSizes {
            plan: plan.len() as u64,
            script: match script {
                Some(bytes) => bytes.len() as u64,
                None => 0,
            },
        }
    }
}
