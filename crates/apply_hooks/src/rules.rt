//! Lists of rules.

ghost use Rattle.std.specs.Prelude.{◌≡◌, ◌++◌, ◌∷◌, [], find, IfErr, IfOk, OnErr, OnOk};
ghost use Rattle.std.specs.Option.{option_copied};
ghost use Rattle.apply_hooks.specs.HookCall.{call_of};
ghost use Rattle.apply_hooks.specs.Rule.{matches};

use crate::hook::Hook;
use crate::hook_call::HookCall;
use crate::phase::Phase;
use crate::rule::Rule;
use crate::verdict::Verdict;
use apply_model::{StepKind, Text};
use std::alloc::{AllocError, Global};
use std::marker::Model;

/// A list of rules. The first rule that matches a call decides the verdict.
#[derive(Debug, Drop)]
pub struct Rules {
    rules: Vec<Rule>,
}

impl Model for Rules {
    ghost use Rattle.std.specs.Prelude.{List};
    ghost use Rattle.apply_hooks.specs.declared.rule.Rule.{Rule};

    ghost Value = { List Rule };

    ghost view = { λ r. r.rules.items };
}

impl Rules {
    /// The empty list.
    pub fn new(alloc: Global) -> Rules
        ensures { result ≡ [] }
    {
        Rules {
            rules: Vec::new(alloc),
        }
    }

    /// One rule that halts each call that it matches: of that phase and that kind, if they are
    /// stated, and of an address that begins with the text. `Err` where memory is refused.
    pub fn halting(
        alloc: Global,
        phase: Option<Phase>,
        kind: Option<StepKind>,
        address_begins: &str,
    ) -> Result<Rules, AllocError>
        ensures { IfOk result (λ rules. rules ≡ record {
          phase = phase;
          kind = kind;
          address_begins = address_begins.now;
          verdict = Verdict.Halt;
        } ∷ []) }
    {
        let rule = Rule {
            phase,
            kind,
            address_begins: Text::new(alloc, address_begins)?,
            verdict: Verdict::Halt,
        };
        let mut rules = Rules::new(alloc);
        match rules.push(rule) {
            Ok(()) => Ok(rules),
            Err(_) => Err(AllocError),
        }
    }

    /// Adds a rule after the others. `Err` means that memory was refused: it returns the rule, and
    /// the list is unchanged.
    pub fn push(&mut self, rule: Rule) -> Result<(), Rule>
        ensures ok { OnOk result (self.new ≡ self.old ++ rule ∷ []) }
        ensures err { OnErr result (self.new ≡ self.old) }
        ensures back { IfErr result (λ back. back ≡ rule) }
    {
        match self.rules.push(rule) {
            Ok(()) => Ok(()),
            Err(refused) => Err(refused.value),
        }
    }
}

impl Hook for Rules {
    ghost rules = { λ own. own };

    fn decide(&self, call: &HookCall<'_>) -> Verdict {
        match first_match(&self.rules, call) {
            Some(rule) => rule.verdict,
            None => Verdict::Continue,
        }
    }
}

/// The first rule that matches the call.
fn first_match<'r>(rules: &'r [Rule], call: &HookCall<'_>) -> Option<&'r Rule>
    ensures { option_copied result ≡ find (λ rule. matches rule (call_of call.now)) rules.now }
{
    rules.iter().find(|rule| rule.matches(call))
}
