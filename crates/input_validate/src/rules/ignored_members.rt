//! Warns of members that no run reads.
//!
//! Every `Err` means that memory was refused.

ghost use Rattle.std.specs.Prelude.{◌≡◌, IfOk, map};
ghost use Rattle.serde_json.specs.View.{members_view, view};
ghost use Rattle.apply_json.specs.ShallowView.{members_in};
ghost use Rattle.input_validate.specs.Findings.{reported};
ghost use Rattle.input_validate.specs.Rules.{is_known, texts_in, unless_known, ignored, ignored_from};

use crate::findings::list::Findings;
use crate::findings::name::Name;
use crate::findings::path::Segment;
use crate::findings::problem::Problem;
use serde_json::{Map, Value};
use std::alloc::{AllocError, Global};

/// Returns whether a text is one of these names.
fn is_known(names: &[Name], text: &str) -> bool
    ensures { result ≡ is_known names.now text.now }
{
    names.iter().any(|name| name.text() == text)
}

/// Warns of each member of an object that has none of these names.
pub fn walk_ignored(alloc: Global, value: &Value, names: &[Name]) -> Result<Findings, AllocError>
    ensures { IfOk result (λ f. f ≡ reported (ignored names.now (view value.now))) }
{
    let texts = texts_in(alloc, value)?;
    walk_texts(alloc, &texts, names)
}

/// Warns of each member with an unknown name. The members have the numbers from 0 on.
fn walk_texts(alloc: Global, texts: &[&str], names: &[Name]) -> Result<Findings, AllocError>
    ensures { IfOk result (λ f. f ≡ reported (ignored_from names.now 0 (map (λ text. text.now) texts.now))) }
{
    let mut all = Findings::none(alloc);
    for (number, text) in texts.iter().enumerate() {
        all = all.then(unless_known(alloc, names, number, text)?)?;
    }
    Ok(all)
}

/// Collects the names of the members of an object. Any other value has none.
fn texts_in(alloc: Global, value: &Value) -> Result<Vec<&str>, AllocError>
    ensures { IfOk result (λ texts. map (λ text. text.now) texts.items ≡ texts_in (members_in (view value.now))) }
{
    match value.as_object() {
        Some(members) => texts_of(alloc, members),
        None => Ok(Vec::new(alloc)),
    }
}

/// Collects the names of members.
fn texts_of(alloc: Global, members: &Map<String, Value>) -> Result<Vec<&str>, AllocError>
    ensures { IfOk result (λ texts. map (λ text. text.now) texts.items ≡ texts_in (members_view members.now.entries)) }
{
    let mut texts = Vec::new(alloc);
    for (name, _) in members {
        texts.push(name.as_str())?;
    }
    Ok(texts)
}

/// Warns of one member, unless its name is known.
fn unless_known(
    alloc: Global,
    names: &[Name],
    number: usize,
    text: &str,
) -> Result<Findings, AllocError>
    ensures { IfOk result (λ f. f ≡ reported (unless_known names.now number text.now)) }
{
    if is_known(names, text) {
        Ok(Findings::none(alloc))
    } else {
        Findings::at(alloc, Segment::Other(number), Problem::NotRead)
    }
}
