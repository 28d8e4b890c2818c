//! Claims by hand.

ghost use Rattle.std.specs.Prelude.{◌≡◌};

use super::*;

/// Claims with two drawers.
fn claims_of_two(rt: &impl Abort, alloc: Global, n: u32) -> (Claims, Drawer, Drawer)
    ensures two { result.0.workers ≡ 2 }
    ensures first { (result.1.claims ≡ result.0) × (result.1.worker ≡ 0) }
    ensures second { (result.2.claims ≡ result.0) × (result.2.worker ≡ 1) }
{
    let (claims, mut drawers) = Claims::open(alloc, 2, n).ok().expect(rt, "claims");
    let second = drawers.pop().expect(rt, "a drawer");
    let first = drawers.pop().expect(rt, "a drawer");
    (claims, first, second)
}

/// Ends with both drawers.
fn finish_two(rt: &impl Abort, alloc: Global, claims: Claims, first: Drawer, second: Drawer)
    requires two { claims.workers ≡ 2 }
    requires first { (first.claims ≡ claims) × (first.worker ≡ 0) }
    requires second { (second.claims ≡ claims) × (second.worker ≡ 1) }
{
    let drawers = vec![in alloc; first, second].ok().expect(rt, "memory");
    let _shared = finish(claims, drawers);
}

/// Fails if another number was drawn.
fn is_drawn(rt: &impl Abort, actual: Option<u32>, wanted: u32) {
    holds(rt, "a number", actual == Some(wanted));
}

/// Fails if a number was drawn.
fn is_none(rt: &impl Abort, actual: Option<u32>) {
    holds(rt, "no number", actual.is_none());
}

#[test]
fn claims_by_hand(rt: HostRuntime) {
    let alloc = rt.alloc();
    let (claims, mut first, mut second) = claims_of_two(&rt, alloc, 3);
    number_is(&rt, "the first worker", u32::from(first.worker()), 0);
    number_is(&rt, "the second worker", u32::from(second.worker()), 1);
    is_drawn(&rt, claims.draw(&mut first), 0);
    is_drawn(&rt, claims.draw(&mut second), 1);
    is_drawn(&rt, claims.draw(&mut first), 2);
    holds(&rt, "not met", !second.met_none());
    is_none(&rt, claims.draw(&mut second));
    holds(&rt, "met", second.met_none());
    is_none(&rt, claims.draw(&mut first));
    is_none(&rt, claims.draw(&mut first));
    finish_two(&rt, alloc, claims, first, second);
}

#[test]
fn one_of_two_draws(rt: HostRuntime) {
    let alloc = rt.alloc();
    let (claims, mut first, second) = claims_of_two(&rt, alloc, 3);
    is_drawn(&rt, claims.draw(&mut first), 0);
    is_drawn(&rt, claims.draw(&mut first), 1);
    finish_two(&rt, alloc, claims, first, second);
}

#[test]
fn one_drawer_of_no_numbers_draws_none_at_once(rt: HostRuntime) {
    let (claims, mut drawers) = Claims::open(rt.alloc(), 1, 0).ok().expect(&rt, "claims");
    let mut only = drawers.pop().expect(&rt, "a drawer");
    holds(&rt, "not met", !only.met_none());
    is_none(&rt, claims.draw(&mut only));
    holds(&rt, "met", only.met_none());
}

#[test]
fn nothing_to_draw(rt: HostRuntime) {
    let (claims, mut first, _second) = claims_of_two(&rt, rt.alloc(), 0);
    is_none(&rt, claims.draw(&mut first));
}
