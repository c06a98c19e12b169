//! Selection sets.

ghost use Rattle.std.specs.Prelude.{◌≡◌, ◌<◌, ◌≤◌, length, IfOk, OnOk, false, codes};
ghost use Rattle.request_model.specs.Grammar.{
  Spread,
  Name,
  Directives,
  IsFieldName,
  IsSelection,
  IsSelections,
  IsSet,
  MaybeSet,
};
ghost use Rattle.gql_ast.specs.Fronts.{NotAt};
ghost use Rattle.gql_ast.specs.Reading.{Took, Stops, Closed, Then, Behind};
ghost use Rattle.gql_ast.specs.Follow.{Anything, EndsSelection};

use crate::cursor::{Stop, Tokens};
use crate::lists::{add, cons};
use crate::values::{arguments, directives, expect, name};
use request_model::{DirectiveList, Selection, SelectionList};
use scalar_val::{List, Str};
use std::alloc::Global;

/// (Name :)? Name
fn field_name(alloc: Global, tokens: &mut Tokens<'_>) -> Result<(Option<Str>, Str), Stop>
    ensures took { IfOk result (λ x. Took IsFieldName (NotAt 58) tokens.old x tokens.new) }
    ensures stops { result ≡ Err Stop.Syntax → Stops IsFieldName (NotAt 58) tokens.old tokens.new }
    ensures shrinks { OnOk result (length tokens.new < length tokens.old) }
{
    let first = name(alloc, tokens)?;
    if !tokens.eat(b':') {
        return Ok((None, first));
    }
    let second = name(alloc, tokens)?;
    Ok((Some(first), second))
}

/// Directives? SelectionSet
#[cycle(selection)]
pub fn body(alloc: Global, tokens: &mut Tokens<'_>) -> Result<(DirectiveList, SelectionList), Stop>
    ensures took { IfOk result (λ x. Took (Then (Directives false) IsSet) Anything tokens.old x tokens.new) }
    ensures stops { result ≡ Err Stop.Syntax → Stops (Then (Directives false) IsSet) Anything tokens.old tokens.new }
    ensures shrinks { OnOk result (length tokens.new < length tokens.old) }
{
    let directives = directives(alloc, tokens, false)?;
    let select = set(alloc, tokens)?;
    Ok((directives, select))
}

/// SelectionSet
#[cycle(selection)]
pub fn set(alloc: Global, tokens: &mut Tokens<'_>) -> Result<SelectionList, Stop>
    ensures took { IfOk result (λ xs. Took IsSet Anything tokens.old xs tokens.new) }
    ensures stops { result ≡ Err Stop.Syntax → Stops IsSet Anything tokens.old tokens.new }
    ensures shrinks { OnOk result (length tokens.new < length tokens.old) }
{
    expect(tokens, b'{')?;
    let first = selection(alloc, tokens)?;
    let others = selections(alloc, tokens)?;
    Ok(cons(first, others)?)
}

/// SelectionSet?
#[cycle(selection)]
fn maybe_set(alloc: Global, tokens: &mut Tokens<'_>) -> Result<SelectionList, Stop>
    ensures took { IfOk result (λ xs. Took MaybeSet (NotAt 123) tokens.old xs tokens.new) }
    ensures stops { result ≡ Err Stop.Syntax → Stops MaybeSet (NotAt 123) tokens.old tokens.new }
    ensures keeps { OnOk result (length tokens.new ≤ length tokens.old) }
{
    if !tokens.is_at(b'{') {
        return Ok(List::new(alloc));
    }
    let select = set(alloc, tokens)?;
    Ok(select)
}

/// Selection* and the closing bracket
#[cycle(selection)]
fn selections(alloc: Global, tokens: &mut Tokens<'_>) -> Result<SelectionList, Stop>
    ensures took { IfOk result (λ xs. Took (Closed IsSelections 125) Anything tokens.old xs tokens.new) }
    ensures stops { result ≡ Err Stop.Syntax → Stops (Closed IsSelections 125) Anything tokens.old tokens.new }
    ensures shrinks { OnOk result (length tokens.new < length tokens.old) }
{
    let mut found = List::new(alloc);
    'each: while !tokens.eat(b'}') {
        add(&mut found, selection(alloc, tokens)?)?;
    }
    Ok(found)
}

/// Selection
#[cycle(selection)]
fn selection(alloc: Global, tokens: &mut Tokens<'_>) -> Result<Selection, Stop>
    ensures took { IfOk result (λ x. Took IsSelection EndsSelection tokens.old x tokens.new) }
    ensures stops { result ≡ Err Stop.Syntax → Stops IsSelection EndsSelection tokens.old tokens.new }
    ensures shrinks { OnOk result (length tokens.new < length tokens.old) }
{
    if tokens.eat_spread() {
        let fragment = after_dots(alloc, tokens)?;
        return Ok(fragment);
    }
    let (alias, name) = field_name(alloc, tokens)?;
    let args = arguments(alloc, tokens, false)?;
    let directives = directives(alloc, tokens, false)?;
    let select = maybe_set(alloc, tokens)?;
    Ok(Selection::Field {
        alias,
        name,
        args,
        directives,
        select,
    })
}

/// What comes after the three dots.
#[cycle(selection)]
fn after_dots(alloc: Global, tokens: &mut Tokens<'_>) -> Result<Selection, Stop>
    ensures took { IfOk result (λ x. Took (Behind Spread IsSelection) EndsSelection tokens.old x tokens.new) }
    ensures stops { result ≡ Err Stop.Syntax → Stops (Behind Spread IsSelection) EndsSelection tokens.old tokens.new }
    ensures shrinks { OnOk result (length tokens.new < length tokens.old) }
{
    if tokens.eat_word("on") {
        let typed = on_type(alloc, tokens)?;
        return Ok(typed);
    }
    match tokens.name() {
        Some(word) => {
            let name = Str::of(alloc, word)?;
            let directives = directives(alloc, tokens, false)?;
            Ok(Selection::Spread { name, directives })
        }
        None => {
            let (directives, select) = body(alloc, tokens)?;
            Ok(Selection::Inline {
                on: None,
                directives,
                select,
            })
        }
    }
}

/// Name Directives? SelectionSet, as they stand after `... on`
#[cycle(selection)]
fn on_type(alloc: Global, tokens: &mut Tokens<'_>) -> Result<Selection, Stop>
    ensures took { IfOk result (λ x. Took (Behind (Name (codes "on")) (Behind Spread IsSelection)) EndsSelection
        tokens.old x tokens.new) }
    ensures stops { result ≡ Err Stop.Syntax →
        Stops (Behind (Name (codes "on")) (Behind Spread IsSelection)) EndsSelection tokens.old tokens.new }
    ensures shrinks { OnOk result (length tokens.new < length tokens.old) }
{
    let on = name(alloc, tokens)?;
    let (directives, select) = body(alloc, tokens)?;
    Ok(Selection::Inline {
        on: Some(on),
        directives,
        select,
    })
}
