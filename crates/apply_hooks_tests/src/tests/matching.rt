//! The calls that a rule matches, and the rule of a list that decides.

use super::*;

/// Calls: a letter, the phase, the kind and the address.
const CALLS: &str = "a Pre Delete ab
b Pre Create ab
c PostDone Delete ab
d PostFailed Update a
e Pre Delete ba
f PostDone Read ";

/// Rules: the verdict, the phase, the kind and the beginning of the address. Each row lists the
/// calls that the rule matches.
const RULES: &str = "Halt any any  => abcdef
Halt Pre any  => abe
Halt PostDone any  => cf
Halt PostFailed any  => d
Halt any Create  => b
Halt any Update  => d
Halt any Delete  => ace
Halt any Read  => f
Halt any any a => abcd
Halt any any ab => abc
Halt any any abc => 
Halt Pre Delete a => a
Halt Pre Delete  => ae
Halt Pre any a => ab
Halt any Delete a => ac";

/// The rule with the verdict, the phase, the kind and the beginning of the address in the text.
fn rule_of(rt: &impl Abort, alloc: Global, text: &str) -> Rule {
    let (verdict, rest) = parted(rt, text, " ");
    let (phase, rest) = parted(rt, rest, " ");
    let (kind, beginning) = parted(rt, rest, " ");
    let verdict = if verdict == "Halt" {
        Verdict::Halt
    } else {
        Verdict::Continue
    };
    Rule {
        phase: phase_of(rt, phase),
        kind: kind_of(rt, kind),
        address_begins: Text::new(alloc, beginning).expect(rt, "memory"),
        verdict,
    }
}

/// Adds the rule of that text.
fn push_rule(rt: &impl Abort, alloc: Global, rules: &mut Rules, text: &str) {
    let pushed = rules.push(rule_of(rt, alloc, text));
    holds(rt, "a rule was added", pushed.is_ok());
}

/// Fails if the rule, which halts, matches the call and should not, or the reverse. The same holds
/// for a list with only that rule.
fn matches_calls(
    rt: &impl Abort,
    row: &str,
    rule: &Rule,
    rules: &Rules,
    call: &str,
    matched: &str,
) {
    let (letter, call) = parted(rt, call, " ");
    let is_matched = matched.contains(letter);
    let call = call_of(rt, call);
    let verdict = rules.decide(&call);
    holds(rt, row, rule.matches(&call) == is_matched);
    holds(rt, row, (verdict == Verdict::Halt) == is_matched);
}

/// Fails if the rule of the row, or a list with only that rule, matches other calls.
fn takes_calls(rt: &impl Abort, alloc: Global, row: &str) {
    let (text, matched) = parted(rt, row, " => ");
    let rule = leaked(rt, alloc, rule_of(rt, alloc, text));
    let rules = leaked(rt, alloc, Rules::new(alloc));
    push_rule(rt, alloc, rules, text);
    for call in CALLS.lines() {
        matches_calls(rt, row, rule, rules, call, matched);
    }
}

#[test]
fn rules_against_calls(rt: HostRuntime) {
    rows_hold(&rt, rt.alloc(), RULES);
}

/// Lists of two rules, and calls on them.
const LISTS: &str = "Continue any any ab then Halt any any a: Pre Create abc => Continue
Continue any any ab then Halt any any a: Pre Create ac => Halt
Continue any any ab then Halt any any a: Pre Create b => Continue
Halt any any a then Continue any any ab: Pre Create abc => Halt
Halt any any a then Continue any any ab: Pre Create ac => Halt
Halt any any a then Continue any any ab: Pre Create b => Continue";

/// Fails if the list of the row gives another verdict.
fn decides(rt: &impl Abort, alloc: Global, row: &str) {
    let (list, call) = parted(rt, row, ": ");
    let (first, second) = parted(rt, list, " then ");
    let rules = leaked(rt, alloc, Rules::new(alloc));
    push_rule(rt, alloc, rules, first);
    push_rule(rt, alloc, rules, second);
    is_decided(rt, alloc, rules, call);
}

/// Fails if a row does not hold, of a list of two rules or of one rule.
fn rows_hold(rt: &impl Abort, alloc: Global, table: &str) {
    for row in table.lines() {
        if row.contains(" then ") {
            decides(rt, alloc, row);
        } else {
            takes_calls(rt, alloc, row);
        }
    }
}

#[test]
fn the_first_rule_that_matches_decides(rt: HostRuntime) {
    rows_hold(&rt, rt.alloc(), LISTS);
}
