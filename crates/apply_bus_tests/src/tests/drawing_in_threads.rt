//! Claims with a thread for each drawer.

ghost use Rattle.std.specs.Prelude.{◌≡◌};

use super::*;

/// What a thread drew, and the drawer that it drew by.
#[derive(Drop)]
struct Drew {
    numbers: Vec<u32>,
    drawer: Drawer,
}

/// Draws until nothing is left.
fn draw_all(rt: &impl Abort, alloc: Global, claims: &Claims, mut drawer: Drawer) -> Drew
    requires { drawer.claims ≡ claims.now }
    ensures { (result.drawer.claims ≡ drawer.claims) × (result.drawer.worker ≡ drawer.worker) }
{
    let mut numbers = Vec::new(alloc);
    for _ in 0..=1000u32 {
        match claims.draw(&mut drawer) {
            Some(number) => numbers.push(number).ok().expect(rt, "memory"),
            None => break,
        }
    }
    Drew { numbers, drawer }
}

/// How many turns a thread waits for at most.
const MAX_TURNS: u32 = 10_000_000;

/// Waits until four threads have come, and fails where one does not.
fn meet_three_others(rt: &impl Abort, come: &AtomicU64) {
    come.fetch_add(1, Ordering::SeqCst);
    for _ in 0..MAX_TURNS {
        if come.load(Ordering::SeqCst) >= 4 {
            return;
        }
        yield_now();
    }
    holds(rt, "four threads at once", false);
}

/// Draws until nothing is left, once all four threads have come.
fn draw_with_others(
    rt: &impl Abort,
    alloc: Global,
    claims: &Claims,
    come: &AtomicU64,
    drawer: Drawer,
) -> Drew
    requires { drawer.claims ≡ claims.now }
    ensures { (result.drawer.claims ≡ drawer.claims) × (result.drawer.worker ≡ drawer.worker) }
{
    meet_three_others(rt, come);
    draw_all(rt, alloc, claims, drawer)
}

/// What two threads draw.
fn draw_by_two<R: Threads + Abort + Sync>(
    rt: &R,
    alloc: Global,
    claims: &Claims,
    come: &AtomicU64,
    first: Drawer,
    second: Drawer,
) -> (Drew, Drew)
    requires first { first.claims ≡ claims.now }
    requires second { second.claims ≡ claims.now }
    ensures first { (result.0.drawer.claims ≡ first.claims) × (result.0.drawer.worker ≡ first.worker) }
    ensures second { (result.1.drawer.claims ≡ second.claims) × (result.1.drawer.worker ≡ second.worker) }
{
    thread::join(
        rt,
        || draw_with_others(rt, alloc, claims, come, first),
        || draw_with_others(rt, alloc, claims, come, second),
    )
}

/// Counts a number that was drawn.
fn count(rt: &impl Abort, number: u32, times: &mut [u8]) {
    let place = times.get_mut(number as usize).expect(rt, "a number");
    *place = place.wrapping_add(1);
}

/// Fails if the numbers do not rise, and counts each of them.
fn note(rt: &impl Abort, drawn: &[u32], times: &mut [u8]) {
    let mut least = 0u32;
    for number in drawn {
        holds(rt, "a number that rises", *number >= least);
        least = number.wrapping_add(1);
        count(rt, *number, times);
    }
}

/// Fails if the numbers of a thread do not rise, or its drawer has not met the end. Counts the
/// numbers, and gives back the drawer.
fn noted(rt: &impl Abort, drew: Drew, times: &mut [u8]) -> Drawer
    ensures { result ≡ drew.drawer }
{
    let Drew { numbers, drawer } = drew;
    note(rt, &numbers, times);
    holds(rt, "met", drawer.met_none());
    drawer
}

/// Claims with four drawers.
fn claims_of_four(
    rt: &impl Abort,
    alloc: Global,
    n: u32,
) -> (Claims, (Drawer, Drawer, Drawer, Drawer))
    ensures four { result.0.workers ≡ 4 }
    ensures first { (result.1.0.claims ≡ result.0) × (result.1.0.worker ≡ 0) }
    ensures second { (result.1.1.claims ≡ result.0) × (result.1.1.worker ≡ 1) }
    ensures third { (result.1.2.claims ≡ result.0) × (result.1.2.worker ≡ 2) }
    ensures fourth { (result.1.3.claims ≡ result.0) × (result.1.3.worker ≡ 3) }
{
    let (claims, mut drawers) = Claims::open(alloc, 4, n).ok().expect(rt, "claims");
    let fourth = drawers.pop().expect(rt, "a drawer");
    let third = drawers.pop().expect(rt, "a drawer");
    let second = drawers.pop().expect(rt, "a drawer");
    let first = drawers.pop().expect(rt, "a drawer");
    (claims, (first, second, third, fourth))
}

/// Ends with all four drawers.
fn finish_four(
    rt: &impl Abort,
    alloc: Global,
    claims: Claims,
    first: Drawer,
    second: Drawer,
    third: Drawer,
    fourth: Drawer,
)
    requires four { claims.workers ≡ 4 }
    requires first { (first.claims ≡ claims) × (first.worker ≡ 0) }
    requires second { (second.claims ≡ claims) × (second.worker ≡ 1) }
    requires third { (third.claims ≡ claims) × (third.worker ≡ 2) }
    requires fourth { (fourth.claims ≡ claims) × (fourth.worker ≡ 3) }
{
    let drawers = vec![in alloc; first, second, third, fourth];
    let _shared = finish(claims, drawers.ok().expect(rt, "memory"));
}

/// Fails if a number was not drawn once.
fn all_once(rt: &impl Abort, times: &[u8]) {
    assert!(rt; times.iter().all(|count| *count == 1));
}

#[test]
fn four_drawers_on_four_threads_share_out_the_numbers(rt: HostRuntime) {
    let (handle, alloc, come) = (&rt, rt.alloc(), AtomicU64::new(0));
    let (claims, (first, second, third, fourth)) = claims_of_four(handle, alloc, 1000);
    let (shared, come, mut times) = (&claims, &come, [0u8; 1000]);
    let ((first, second), (third, fourth)) = thread::join(
        handle,
        || draw_by_two(handle, alloc, shared, come, first, second),
        || draw_by_two(handle, alloc, shared, come, third, fourth),
    );
    let first = noted(handle, first, &mut times);
    let second = noted(handle, second, &mut times);
    let third = noted(handle, third, &mut times);
    let fourth = noted(handle, fourth, &mut times);
    all_once(handle, &times);
    finish_four(handle, alloc, claims, first, second, third, fourth);
}
