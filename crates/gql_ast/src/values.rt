//! Values, arguments and directives.

ghost use Rattle.std.specs.Prelude.{◌≡◌, ◌<◌, ◌≤◌, length, Bool, IfOk, OnOk};
ghost use Rattle.request_model.specs.Grammar.{
  IsValue,
  IsValues,
  IsPair,
  IsPairs,
  MaybeArguments,
  IsDirective,
  Directives,
};
ghost use Rattle.gql_ast.specs.Fronts.{NotAt, NotName};
ghost use Rattle.gql_ast.specs.Reading.{Took, Stops, Closed, IsName, IsPunct, IsWord};
ghost use Rattle.gql_ast.specs.Follow.{Anything, EndsDirectives};

use crate::cursor::{Stop, Tokens};
use crate::lists::{add, cons};
use gql_lex::unescaped;
use request_model::{Directive, DirectiveList, GPair, GPairs, GValue, GValueList};
use scalar_val::{List, Str};
use std::alloc::Global;

/// Name
pub fn name(alloc: Global, tokens: &mut Tokens<'_>) -> Result<Str, Stop>
    ensures took { IfOk result (λ n. Took IsName Anything tokens.old n tokens.new) }
    ensures stops { result ≡ Err Stop.Syntax → Stops IsName Anything tokens.old tokens.new }
    ensures shrinks { OnOk result (length tokens.new < length tokens.old) }
{
    match tokens.name() {
        Some(word) => Ok(Str::of(alloc, word)?),
        None => Err(Stop::Syntax),
    }
}

/// A punctuator.
pub fn expect(tokens: &mut Tokens<'_>, b: u8) -> Result<(), Stop>
    ensures took { IfOk result (λ n. Took (IsPunct b) Anything tokens.old n tokens.new) }
    ensures stops { result ≡ Err Stop.Syntax → Stops (IsPunct b) Anything tokens.old tokens.new }
    ensures shrinks { OnOk result (length tokens.new < length tokens.old) }
{
    if tokens.eat(b) {
        Ok(())
    } else {
        Err(Stop::Syntax)
    }
}

/// A name that is written so.
pub fn expect_word(tokens: &mut Tokens<'_>, word: &str) -> Result<(), Stop>
    ensures took { IfOk result (λ n. Took (IsWord word.now) Anything tokens.old n tokens.new) }
    ensures stops { result ≡ Err Stop.Syntax → Stops (IsWord word.now) Anything tokens.old tokens.new }
    ensures shrinks { OnOk result (length tokens.new < length tokens.old) }
{
    if tokens.eat_word(word) {
        Ok(())
    } else {
        Err(Stop::Syntax)
    }
}

/// true | false | null | Enum
fn word_value(alloc: Global, tokens: &mut Tokens<'_>) -> Result<GValue, Stop>
    ensures took { IfOk result (λ x. (constant : Bool) → Took (IsValue constant) Anything tokens.old x tokens.new) }
    ensures none { result ≡ Err Stop.Syntax → (tokens.new ≡ tokens.old) × NotName tokens.old }
    ensures shrinks { OnOk result (length tokens.new < length tokens.old) }
{
    if tokens.eat_word("true") {
        return Ok(GValue::Bool(true));
    }
    if tokens.eat_word("false") {
        return Ok(GValue::Bool(false));
    }
    if tokens.eat_word("null") {
        return Ok(GValue::Null);
    }
    match tokens.name() {
        Some(word) => Ok(GValue::Enum(Str::of(alloc, word)?)),
        None => Err(Stop::Syntax),
    }
}

/// Value. Where it is `constant` it has no variable.
#[cycle(value)]
pub fn value(alloc: Global, tokens: &mut Tokens<'_>, constant: bool) -> Result<GValue, Stop>
    ensures took { IfOk result (λ x. Took (IsValue constant) Anything tokens.old x tokens.new) }
    ensures stops { result ≡ Err Stop.Syntax → Stops (IsValue constant) Anything tokens.old tokens.new }
    ensures shrinks { OnOk result (length tokens.new < length tokens.old) }
{
    if tokens.eat(b'[') {
        return Ok(GValue::Many(values(alloc, tokens, constant)?));
    }
    if tokens.eat(b'{') {
        return Ok(GValue::Object(pairs(alloc, tokens, constant, b'}')?));
    }
    if tokens.eat_dollar(constant) {
        return Ok(GValue::Var(name(alloc, tokens)?));
    }
    if let Some(digits) = tokens.int() {
        return Ok(GValue::Int(Str::of(alloc, digits)?));
    }
    if let Some(text) = tokens.quoted() {
        return Ok(GValue::Text(unescaped(alloc, text)?));
    }
    word_value(alloc, tokens)
}

/// Value* and the closing bracket
#[cycle(value)]
fn values(alloc: Global, tokens: &mut Tokens<'_>, constant: bool) -> Result<GValueList, Stop>
    ensures took { IfOk result (λ xs. Took (Closed (IsValues constant) 93) Anything tokens.old xs tokens.new) }
    ensures stops { result ≡ Err Stop.Syntax → Stops (Closed (IsValues constant) 93) Anything tokens.old tokens.new }
    ensures shrinks { OnOk result (length tokens.new < length tokens.old) }
{
    let mut found = List::new(alloc);
    'each: while !tokens.eat(b']') {
        add(&mut found, value(alloc, tokens, constant)?)?;
    }
    Ok(found)
}

/// Name : Value
#[cycle(value)]
fn pair(alloc: Global, tokens: &mut Tokens<'_>, constant: bool) -> Result<GPair, Stop>
    ensures took { IfOk result (λ x. Took (IsPair constant) Anything tokens.old x tokens.new) }
    ensures stops { result ≡ Err Stop.Syntax → Stops (IsPair constant) Anything tokens.old tokens.new }
    ensures shrinks { OnOk result (length tokens.new < length tokens.old) }
{
    let name = name(alloc, tokens)?;
    expect(tokens, b':')?;
    let value = value(alloc, tokens, constant)?;
    Ok(GPair { name, value })
}

/// (Name : Value)* and the closing bracket
#[cycle(value)]
fn pairs(alloc: Global, tokens: &mut Tokens<'_>, constant: bool, close: u8) -> Result<GPairs, Stop>
    ensures took { IfOk result (λ xs. Took (Closed (IsPairs constant) close) Anything tokens.old xs tokens.new) }
    ensures stops { result ≡ Err Stop.Syntax → Stops (Closed (IsPairs constant) close) Anything tokens.old tokens.new }
    ensures shrinks { OnOk result (length tokens.new < length tokens.old) }
{
    let mut found = List::new(alloc);
    'each: while !tokens.eat(close) {
        add(&mut found, pair(alloc, tokens, constant)?)?;
    }
    Ok(found)
}

/// Arguments?
pub fn arguments(alloc: Global, tokens: &mut Tokens<'_>, constant: bool) -> Result<GPairs, Stop>
    ensures took { IfOk result (λ xs. Took (MaybeArguments constant) (NotAt 40) tokens.old xs tokens.new) }
    ensures stops { result ≡ Err Stop.Syntax → Stops (MaybeArguments constant) (NotAt 40) tokens.old tokens.new }
    ensures keeps { OnOk result (length tokens.new ≤ length tokens.old) }
{
    if !tokens.eat(b'(') {
        return Ok(List::new(alloc));
    }
    let first = pair(alloc, tokens, constant)?;
    let others = pairs(alloc, tokens, constant, b')')?;
    Ok(cons(first, others)?)
}

/// @ Name Arguments?
fn directive(alloc: Global, tokens: &mut Tokens<'_>, constant: bool) -> Result<Directive, Stop>
    ensures took { IfOk result (λ x. Took (IsDirective constant) (NotAt 40) tokens.old x tokens.new) }
    ensures stops { result ≡ Err Stop.Syntax → Stops (IsDirective constant) (NotAt 40) tokens.old tokens.new }
    ensures shrinks { OnOk result (length tokens.new < length tokens.old) }
{
    expect(tokens, b'@')?;
    let name = name(alloc, tokens)?;
    let args = arguments(alloc, tokens, constant)?;
    Ok(Directive { name, args })
}

/// Directives?
pub fn directives(
    alloc: Global,
    tokens: &mut Tokens<'_>,
    constant: bool,
) -> Result<DirectiveList, Stop>
    ensures took { IfOk result (λ xs. Took (Directives constant) EndsDirectives tokens.old xs tokens.new) }
    ensures stops { result ≡ Err Stop.Syntax → Stops (Directives constant) EndsDirectives tokens.old tokens.new }
    ensures keeps { OnOk result (length tokens.new ≤ length tokens.old) }
{
    let mut found = List::new(alloc);
    'each: while tokens.is_at(b'@') {
        add(&mut found, directive(alloc, tokens, constant)?)?;
    }
    Ok(found)
}
