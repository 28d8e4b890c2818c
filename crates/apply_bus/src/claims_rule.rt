//! The rule of claims, and what each kind of step under the rule ensures.

use atomic_table::{Join, Play, Split, TableRule};
use std::collections::LinkedList;

/// What a drawer has drawn. Only proofs use this type; no value of it exists.
pub struct Share {
    pub worker: u8,
    /// The numbers are below this limit.
    pub limit: u32,
    /// How many drawers there are.
    pub workers: u8,
    pub drawn: LinkedList<u64>,
    pub met_none: bool,
}

/// What a seat knows. Only proofs use this type; no value of it exists.
pub struct Hand {
    pub shares: LinkedList<Share>,
}

/// The rule: the word of the table agrees with what was drawn.
pub struct ClaimsRule;

impl TableRule<u8, Hand, (u32, u8)> for ClaimsRule {
    ghost use Rattle.apply_bus.specs.ClaimsRule.{hand, new_shares, IsLawful};

    ghost holds = { λ key. IsLawful key.0 key.1 };

    ghost first = { λ key. hand (new_shares key.0 key.1 0 key.1) };
}

/// The step that makes a drawer.
pub struct DealsShare;

impl Split<Hand> for DealsShare {
    ghost use Rattle.apply_bus.specs.ClaimsRule.{first_alone, hand, without_first};

    ghost left = { λ v. hand (without_first v.shares) };

    ghost right = { λ v. hand (first_alone v.shares) };
}

/// The step that joins a drawer.
pub struct JoinsShares;

impl Join<Hand> for JoinsShares {
    ghost use Rattle.apply_bus.specs.ClaimsRule.{spent, with_shares_of};

    ghost both = { with_shares_of };

    ghost spent = { spent };
}

/// The step that draws a number.
pub struct Draws;

impl Play<u8, Hand> for Draws {
    ghost use Rattle.apply_bus.specs.ClaimsRule.{IsDrawn};

    ghost then = { λ _ me previous after. IsDrawn me previous after };
}

/// The step that only looks at the rule.
pub struct LooksAtShares;

impl Play<u8, Hand> for LooksAtShares {
    ghost use Rattle.std.specs.Prelude.{◌≡◌};
    ghost use Rattle.apply_bus.specs.ClaimsRule.{AreDealt};

    ghost then = { λ _ me previous after. (after ≡ me) × AreDealt me.0 };
}

/// The step that makes a seat without a share.
pub struct EntersEmpty;

impl Play<u8, Hand> for EntersEmpty {
    ghost use Rattle.std.specs.Prelude.{◌≡◌, []};
    ghost use Rattle.apply_bus.specs.ClaimsRule.{spent};

    ghost then = { λ _ me previous after. after ≡ (spent, []) };
}
