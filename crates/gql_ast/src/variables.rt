//! Types and the definitions of variables.

ghost use Rattle.std.specs.Prelude.{◌≡◌, ◌<◌, ◌≤◌, length, IfOk, OnOk, true};
ghost use Rattle.request_model.specs.Grammar.{IsType, MaybeDefault, IsVarDef, MaybeVariables, Many};
ghost use Rattle.gql_ast.specs.Fronts.{NotAt};
ghost use Rattle.gql_ast.specs.Reading.{Took, Stops, Closed, Strict};
ghost use Rattle.gql_ast.specs.Follow.{Anything, EndsVariable};

use crate::cursor::{Stop, Tokens};
use crate::lists::{add, cons};
use crate::values::{directives, expect, name, value};
use request_model::{GValue, TypeRef, VarDef, VarDefList};
use scalar_val::{List, NoMemory};
use sqlite_items::Boxed;
use std::alloc::Global;

/// !?
fn strict(tokens: &mut Tokens<'_>) -> bool
    ensures took { Took Strict (NotAt 33) tokens.old result tokens.new }
    ensures keeps { length tokens.new ≤ length tokens.old }
{
    tokens.eat(b'!')
}

fn boxed(alloc: Global, item: TypeRef) -> Result<Boxed<TypeRef>, NoMemory>
    ensures { IfOk result (λ b. b ≡ item) }
{
    Ok(Boxed::new(alloc, item)?)
}

/// Type
fn type_ref(alloc: Global, tokens: &mut Tokens<'_>) -> Result<TypeRef, Stop>
    ensures took { IfOk result (λ x. Took IsType (NotAt 33) tokens.old x tokens.new) }
    ensures stops { result ≡ Err Stop.Syntax → Stops IsType (NotAt 33) tokens.old tokens.new }
    ensures shrinks { OnOk result (length tokens.new < length tokens.old) }
{
    if tokens.eat(b'[') {
        let inner = type_ref(alloc, tokens)?;
        expect(tokens, b']')?;
        let strict = strict(tokens);
        let item = boxed(alloc, inner)?;
        return Ok(TypeRef::Listed { item, strict });
    }
    let name = name(alloc, tokens)?;
    let strict = strict(tokens);
    Ok(TypeRef::Named { name, strict })
}

/// (= Value)?
fn default_value(alloc: Global, tokens: &mut Tokens<'_>) -> Result<Option<GValue>, Stop>
    ensures took { IfOk result (λ x. Took MaybeDefault (NotAt 61) tokens.old x tokens.new) }
    ensures stops { result ≡ Err Stop.Syntax → Stops MaybeDefault (NotAt 61) tokens.old tokens.new }
    ensures keeps { OnOk result (length tokens.new ≤ length tokens.old) }
{
    if !tokens.eat(b'=') {
        return Ok(None);
    }
    let value = value(alloc, tokens, true)?;
    Ok(Some(value))
}

/// $ Name : Type (= Value)? Directives?
fn variable(alloc: Global, tokens: &mut Tokens<'_>) -> Result<VarDef, Stop>
    ensures took { IfOk result (λ x. Took IsVarDef EndsVariable tokens.old x tokens.new) }
    ensures stops { result ≡ Err Stop.Syntax → Stops IsVarDef EndsVariable tokens.old tokens.new }
    ensures shrinks { OnOk result (length tokens.new < length tokens.old) }
{
    expect(tokens, b'$')?;
    let name = name(alloc, tokens)?;
    expect(tokens, b':')?;
    let kind = type_ref(alloc, tokens)?;
    let default = default_value(alloc, tokens)?;
    let directives = directives(alloc, tokens, true)?;
    Ok(VarDef {
        name,
        kind,
        default,
        directives,
    })
}

/// VarDef* and the closing bracket
fn more_variables(alloc: Global, tokens: &mut Tokens<'_>) -> Result<VarDefList, Stop>
    ensures took { IfOk result (λ xs. Took (Closed (Many IsVarDef) 41) Anything tokens.old xs tokens.new) }
    ensures stops { result ≡ Err Stop.Syntax → Stops (Closed (Many IsVarDef) 41) Anything tokens.old tokens.new }
    ensures shrinks { OnOk result (length tokens.new < length tokens.old) }
{
    let mut found = List::new(alloc);
    'each: while !tokens.eat(b')') {
        add(&mut found, variable(alloc, tokens)?)?;
    }
    Ok(found)
}

/// VarDefs?
pub fn variables(alloc: Global, tokens: &mut Tokens<'_>) -> Result<VarDefList, Stop>
    ensures took { IfOk result (λ xs. Took MaybeVariables (NotAt 40) tokens.old xs tokens.new) }
    ensures stops { result ≡ Err Stop.Syntax → Stops MaybeVariables (NotAt 40) tokens.old tokens.new }
    ensures keeps { OnOk result (length tokens.new ≤ length tokens.old) }
{
    if !tokens.eat(b'(') {
        return Ok(List::new(alloc));
    }
    let first = variable(alloc, tokens)?;
    let others = more_variables(alloc, tokens)?;
    Ok(cons(first, others)?)
}
