//! Compares what the workers drew and sent with what was taken.

ghost use Rattle.std.specs.Prelude.{◌≡◌, ◌++◌, ◌∷◌, ◌<◌, ℕ, List, [], All, length, slice_index_or, true};
ghost use mathlib.Core.List.{IsPrefix};
ghost use Rattle.apply_events.specs.WorkerEvents.{worker_events};
ghost use Rattle.apply_bus.specs.Bus.{sent_list_of, IsTakenInPart, IsTakenWhole};
ghost use Rattle.apply_bus.specs.Items.{closes, events};
ghost use Rattle.apply_run.specs.Applied.{IsApplied, IsAppliedInPart};
ghost use Rattle.apply_run.specs.Worker.Drawn.{IsDrawn};
ghost use Rattle.apply_events.specs.Fits.{IsOfPlan};
ghost use Rattle.apply_run.specs.Run.Threads.{EachAt};
ghost use Rattle.apply_run.specs.Worker.Stopped.{sender_of, is_closed, IsStoppedWorker};

use crate::run::run_name::RunName;
use crate::worker::{SenderEnd, StoppedWorker};
use apply_bus::{Claims, Drawer, DrawerJoin, Taken};
use apply_events::{
    a_rising_list_fits_below_its_limit, a_rising_list_rises_on, workers_in_order_stand_once,
};

/// Joins the drawers and senders of workers whose threads have ended. Returns whether all that the
/// workers had to send was taken.
///
/// Numbers that nobody drew are drawn here, so that every change is dealt to a worker.
pub(crate) fn reconcile<K: RunName>(
    claims: &Claims,
    mut taken: Taken,
    stopped: Vec<StoppedWorker>,
) -> bool
    requires claims { claims.now ≡ K.claims }
    requires bus { taken.bus ≡ K.bus }
    requires limit { K.claims.limit ≡ length K.work.plan.changes }
    requires workers { (taken.workers ≡ K.claims.workers) × (length stopped.items ≡ K.claims.workers) }
    requires some { 0 < K.claims.workers }
    requires stopped { EachAt (IsStoppedWorker K.work K.claims K.bus) stopped.items }
    ensures applied { (lists : List (List ℕ)) × IsAppliedInPart K.work K.claims.workers lists (events taken.taken)
        × (result ≡ true → IsApplied K.work K.claims.workers lists (events taken.taken)) }
    ensures fits { All (IsOfPlan K.work.plan) (events taken.taken) }
{
    workers_in_order_stand_once();
    let mut drawer_join = DrawerJoin::begin(claims);
    let mut closed = true;
    for worker in stopped {
        let StoppedWorker { mut drawer, sender } = worker;
        draw_all(claims, &mut drawer);
        drawer_join.join(claims, drawer);
        closed &= join_sender(&mut taken, sender);
    }
    drawer_join.finish(claims);
    let left = taken.open_left();
    closed && left == 0
}

/// Draws until no number is left.
fn draw_all(claims: &Claims, drawer: &mut Drawer)
    requires claims { drawer.old.claims ≡ claims.now }
    requires drawn { IsDrawn claims.now.limit drawer.old.drawn }
    ensures same { (drawer.new.claims ≡ drawer.old.claims) × (drawer.new.worker ≡ drawer.old.worker) }
    ensures met_none { drawer.new.met_none ≡ true }
    ensures more { IsPrefix drawer.old.drawn drawer.new.drawn }
    ensures none_left { drawer.old.met_none ≡ true → drawer.new.drawn ≡ drawer.old.drawn }
{
    // The drawn numbers rise and stay below the limit, so the loop ends.
    a_rising_list_rises_on();
    a_rising_list_fits_below_its_limit();
    while let Some(_) = claims.draw(drawer) {}
}

/// Joins a sender, and returns whether it was closed.
fn join_sender(taken: &mut Taken, sender: SenderEnd) -> bool
    requires { (sender_of sender).bus ≡ taken.old.bus }
    ensures joined { taken.new ≡ record taken.old { sent_lists = taken.old.sent_lists ++ sent_list_of (sender_of sender) ∷ [] } }
    ensures closed { result ≡ is_closed sender }
    ensures part { IsTakenInPart taken.old.taken (sent_list_of (sender_of sender)) }
    ensures whole { result ≡ true → closes taken.old.taken ≡ taken.old.workers
        → IsTakenWhole taken.old.taken (sent_list_of (sender_of sender)) }
{
    match sender {
        SenderEnd::Closed(closed) => {
            taken.join_closed(closed);
            true
        }
        SenderEnd::Open(tx) => {
            taken.join_unclosed(tx);
            false
        }
    }
}
