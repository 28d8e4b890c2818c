//! Lists of rules and of hooks.

use apply_hooks::{FnHook, Hook, HookCall, HookClosure, Phase, Registry, Rule, Rules, Verdict};
use apply_plan::{StepKind, Text};
use std::alloc::Global;
use std::io;

/// Adds a rule to a list of one.
pub fn rules_push(rt: &impl Print, alloc: Global) -> io::Result<()> {
    let mut rules = Rules::new(alloc);
    let rule = Rule {
        phase: None,
        kind: Some(StepKind::Create),
        address_begins: Text::new(alloc, "module.a")?,
        verdict: Verdict::Halt,
    };
    push_rule(rt, &mut rules, rule)
}

/// Adds that rule to those rules.
fn push_rule(rt: &impl Print, rules: &mut Rules, rule: Rule) -> io::Result<()> {
    println!(rt; "call {rule:?} {rules:?}")?;
    match rules.push(rule) {
        Ok(()) => println!(rt; "Ok {rules:?}"),
        Err(back) => println!(rt; "Err {back:?} {rules:?}"),
    }
}

/// Adds a hook, which halts each step before it begins, to a registry without any.
pub fn registry_add(rt: &impl Print, alloc: Global) -> io::Result<()> {
    let mut registry = Registry::new(alloc);
    let rules = Rules::halting(alloc, Some(Phase::Pre), None, "")?;
    let answer: HookClosure = Box::new(alloc, |call: &HookCall<'_>| {
        if call.phase == Phase::Pre {
            Verdict::Halt
        } else {
            Verdict::Continue
        }
    })?;
    let hook = FnHook::new(rules, answer);
    let call = HookCall {
        phase: Phase::Pre,
        kind: StepKind::Create,
        address: "a_b.c",
    };
    println!(rt;
        "call {:?} {} {:?}",
        hook.decide(&call),
        registry.len(),
        registry.ask(&call)
    )?;
    match registry.add(hook) {
        Ok(()) => println!(rt; "Ok {} {:?}", registry.len(), registry.ask(&call)),
        Err((error, back)) => println!(rt;
            "Err({error:?}) {:?} {} {:?}",
            back.decide(&call),
            registry.len(),
            registry.ask(&call)
        ),
    }
}
