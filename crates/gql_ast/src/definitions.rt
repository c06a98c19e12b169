//! Definitions and documents.

ghost use Rattle.std.specs.Prelude.{◌≡◌, ◌≢◌, ◌∷◌, [], ◌<◌, ◌≤◌, length, IfOk, OnOk, MatchOption, codes};
ghost use Rattle.request_model.specs.Strings.{Text};
ghost use Rattle.request_model.specs.Grammar.{Name, Many, MaybeName, IsOpWord, IsDefinition, IsDocument};
ghost use Rattle.gql_ast.specs.Fronts.{IsAt, NotWord, NotName};
ghost use Rattle.gql_ast.specs.Reading.{Took, Stops, Behind, IsFragmentName};
ghost use Rattle.gql_ast.specs.Follow.{Anything, AtEnd};

use crate::cursor::{Stop, Tokens};
use crate::lists::{add, cons};
use crate::selections::{body, set};
use crate::values::{expect_word, name};
use crate::variables::variables;
use request_model::{Definition, DefinitionList, Document, OpWord};
use scalar_val::{List, NoMemory, Str};
use std::alloc::Global;

/// Name?
fn maybe_name(alloc: Global, tokens: &mut Tokens<'_>) -> Result<Option<Str>, NoMemory>
    ensures took { IfOk result (λ n. Took MaybeName NotName tokens.old n tokens.new) }
    ensures keeps { OnOk result (length tokens.new ≤ length tokens.old) }
{
    match tokens.name() {
        Some(word) => Ok(Some(Str::of(alloc, word)?)),
        None => Ok(None),
    }
}

/// Takes the word of an operation, if one comes next.
fn operation_word(tokens: &mut Tokens<'_>) -> Option<OpWord>
    ensures some { MatchOption result ((w : Text) (o : OpWord) → IsOpWord w o → NotWord w tokens.old)
        (λ o. (w : Text) × IsOpWord w o × (tokens.old ≡ Name w ∷ tokens.new)) }
    ensures none { result ≡ None → tokens.new ≡ tokens.old }
{
    if tokens.eat_word("query") {
        return Some(OpWord::Query);
    }
    if tokens.eat_word("mutation") {
        return Some(OpWord::Mutation);
    }
    if tokens.eat_word("subscription") {
        return Some(OpWord::Subscription);
    }
    None
}

/// Name? VarDefs? Directives? SelectionSet, as they stand after the word of an operation
fn operation(alloc: Global, tokens: &mut Tokens<'_>, word: OpWord) -> Result<Definition, Stop>
    ensures took { IfOk result (λ x. (w : Text) → IsOpWord w word →
        Took (Behind (Name w) IsDefinition) Anything tokens.old x tokens.new) }
    ensures stops { result ≡ Err Stop.Syntax → (w : Text) → IsOpWord w word →
        Stops (Behind (Name w) IsDefinition) Anything tokens.old tokens.new }
    ensures shrinks { OnOk result (length tokens.new < length tokens.old) }
{
    let name = maybe_name(alloc, tokens)?;
    let vars = variables(alloc, tokens)?;
    let (directives, select) = body(alloc, tokens)?;
    Ok(Definition::Operation {
        word,
        name,
        vars,
        directives,
        select,
    })
}

/// A name other than `on`
fn fragment_name(alloc: Global, tokens: &mut Tokens<'_>) -> Result<Str, Stop>
    ensures took { IfOk result (λ n. Took IsFragmentName Anything tokens.old n tokens.new) }
    ensures stops { result ≡ Err Stop.Syntax → Stops IsFragmentName Anything tokens.old tokens.new }
    ensures shrinks { OnOk result (length tokens.new < length tokens.old) }
{
    if tokens.is_word("on") {
        return Err(Stop::Syntax);
    }
    match tokens.name() {
        Some(word) => Ok(Str::of(alloc, word)?),
        None => Err(Stop::Syntax),
    }
}

/// FragName on Name Directives? SelectionSet, as they stand after `fragment`
fn fragment(alloc: Global, tokens: &mut Tokens<'_>) -> Result<Definition, Stop>
    ensures took { IfOk result (λ x. Took (Behind (Name (codes "fragment")) IsDefinition) Anything tokens.old x
        tokens.new) }
    ensures stops { result ≡ Err Stop.Syntax →
        Stops (Behind (Name (codes "fragment")) IsDefinition) Anything tokens.old tokens.new }
    ensures shrinks { OnOk result (length tokens.new < length tokens.old) }
{
    let called = fragment_name(alloc, tokens)?;
    expect_word(tokens, "on")?;
    let on = name(alloc, tokens)?;
    let (directives, select) = body(alloc, tokens)?;
    Ok(Definition::Fragment {
        name: called,
        on,
        directives,
        select,
    })
}

/// SelectionSet, which alone is a query
fn shorthand(alloc: Global, tokens: &mut Tokens<'_>) -> Result<Definition, Stop>
    requires { IsAt 123 tokens.old }
    ensures took { IfOk result (λ x. Took IsDefinition Anything tokens.old x tokens.new) }
    ensures stops { result ≡ Err Stop.Syntax → Stops IsDefinition Anything tokens.old tokens.new }
    ensures shrinks { OnOk result (length tokens.new < length tokens.old) }
{
    let select = set(alloc, tokens)?;
    Ok(Definition::Operation {
        word: OpWord::Query,
        name: None,
        vars: List::new(alloc),
        directives: List::new(alloc),
        select,
    })
}

/// Definition
fn definition(alloc: Global, tokens: &mut Tokens<'_>) -> Result<Definition, Stop>
    ensures took { IfOk result (λ x. Took IsDefinition Anything tokens.old x tokens.new) }
    ensures stops { result ≡ Err Stop.Syntax → Stops IsDefinition Anything tokens.old tokens.new }
    ensures shrinks { OnOk result (length tokens.new < length tokens.old) }
{
    if tokens.is_at(b'{') {
        return shorthand(alloc, tokens);
    }
    if tokens.eat_word("fragment") {
        let found = fragment(alloc, tokens)?;
        return Ok(found);
    }
    let Some(word) = operation_word(tokens) else {
        return Err(Stop::Syntax);
    };
    let request = operation(alloc, tokens, word)?;
    Ok(request)
}

/// Definition* up to the end
fn definitions(alloc: Global, tokens: &mut Tokens<'_>) -> Result<DefinitionList, Stop>
    ensures took { IfOk result (λ xs. Took (Many IsDefinition) AtEnd tokens.old xs tokens.new) }
    ensures stops { result ≡ Err Stop.Syntax → Stops (Many IsDefinition) AtEnd tokens.old tokens.new }
    ensures end { OnOk result (tokens.new ≡ []) }
{
    let mut found = List::new(alloc);
    'each: while !tokens.is_empty() {
        add(&mut found, definition(alloc, tokens)?)?;
    }
    Ok(found)
}

/// Definition+ up to the end
pub fn document(alloc: Global, tokens: &mut Tokens<'_>) -> Result<Document, Stop>
    ensures took { IfOk result (λ x. Took IsDocument AtEnd tokens.old x tokens.new) }
    ensures stops { result ≡ Err Stop.Syntax → Stops IsDocument AtEnd tokens.old tokens.new }
    ensures end { OnOk result (tokens.new ≡ []) }
{
    let first = definition(alloc, tokens)?;
    let others = definitions(alloc, tokens)?;
    let definitions = cons(first, others)?;
    Ok(Document { definitions })
}
