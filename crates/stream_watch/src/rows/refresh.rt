//! Counts refreshes.

ghost use Rattle.std.specs.Prelude.{◌≡◌, IfOk, OnOk, is_some, unwrap_or};
ghost use Rattle.serde_json.specs.View.{view};
ghost use Rattle.stream_watch.specs.RefreshRow.{refresh_began, refresh_ended, refresh_told};
ghost use Rattle.stream_watch.specs.State.{Tells, nothing, state_of};

use crate::rows::step::{hook_in, kind_of};
use crate::steps::REFRESH;
use crate::watcher::Watcher;
use serde_json::Value;
use std::alloc::AllocError;
use stream_message::Stage;

impl Watcher {
    /// Counts a refresh that begins or ends. `false` where the message lacks the address. `Err`
    /// where memory is refused.
    pub fn refresh(&mut self, stage: Stage, tree: &Value, moment: i64) -> Result<bool, AllocError>
        ensures is { IfOk result (λ is. is ≡ is_some (refresh_told (state_of self.old) stage (view tree.now) moment)) }
        ensures told { OnOk result (Tells self.old self.new
            (unwrap_or (refresh_told (state_of self.old) stage (view tree.now) moment) (nothing (state_of self.old)))) }
    {
        let Some(message) = hook_in(tree) else {
            return Ok(false);
        };
        match stage {
            Stage::Start => {
                self.refresh_began(message.address, kind_of(message.hook), moment)?;
            }
            Stage::Complete => {
                self.note_length(message.address, REFRESH, true, moment)?;
                self.refresh_ended(message.address, moment);
            }
            _ => self.refresh_ended(message.address, moment),
        }
        Ok(true)
    }

    /// Counts a refresh that begins. `Err` where memory is refused.
    fn refresh_began(&mut self, address: &str, kind: &str, moment: i64) -> Result<(), AllocError>
        ensures { OnOk result (Tells self.old self.new (nothing (refresh_began address.now kind.now moment (state_of self.old)))) }
    {
        self.steps
            .begin(self.alloc, address, REFRESH, kind, true, moment)?;
        self.refreshes = self.refreshes.with_begin(moment);
        Ok(())
    }

    /// Counts a refresh that ends.
    fn refresh_ended(&mut self, address: &str, moment: i64)
        ensures { Tells self.old self.new (nothing (refresh_ended address.now moment (state_of self.old))) }
    {
        let _ = self.steps.end(address, REFRESH, true);
        self.refreshes = self.refreshes.with_end(moment);
    }
}
