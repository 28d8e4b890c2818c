//! The choice of a lane.

ghost use Rattle.std.specs.Prelude.{◌≡◌, ◌<◌, length};
ghost use Rattle.apply_events.specs.Waits.Schedule.{first_earliest};

use crate::lanes::lane_time::LaneTime;

/// The lane that is free first. Of several lanes it is the lowest.
pub fn first_earliest(free: &[LaneTime]) -> usize
    requires { 0 < length free.now }
    ensures { result ≡ first_earliest free.now }
{
    let mut first = 0;
    for lane in 1..free.len() {
        if free[lane].is_earlier(free[first]) {
            first = lane;
        }
    }
    first
}
