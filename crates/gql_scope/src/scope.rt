//! What decides the conditions of directives and the fragments that spreads name.

ghost use Rattle.std.specs.Prelude.{◌≡◌, Some, None, find, map, length, option_and_then, IfOk};
ghost use Rattle.std.specs.List.{slice_get};
ghost use Rattle.std.specs.Str.{bytes_eq};
ghost use Rattle.std.specs.Option.{option_copied, option_flatten};
ghost use Rattle.serde_json.specs.View.{view};
ghost use Rattle.request_model.specs.Selection as spec;
ghost use Rattle.request_model.specs.Selection.{given_values};
ghost use Rattle.request_model.specs.declared.document.VarDef.{VarDef};

use crate::fragments::Fragments;
use crate::operation::Fragment;
use name_set::NameIndex;
use request_model::{Directive, GPair, GValue, VarDef};
use scalar_val::NoMemory;
use serde_json::Value;
use std::alloc::Global;
use std::marker::Model;

/// The fragments of a document, the variables of an operation, and the values that are given for them. What a
/// variable's value decides is found by the variable's name, in logarithmic time.
#[derive(Drop)]
pub struct Scope<'a> {
    pub fragments: Fragments<'a>,
    vars: &'a [VarDef],
    variables: &'a Value,
    names: NameIndex<'a>,
    booleans: Vec<Option<bool>>,
}

impl<'a> Model for Scope<'a> {
    ghost use Rattle.std.specs.Coded.{codes};
    ghost use Rattle.serde_json.specs.View.{view as data_of};
    ghost use Rattle.request_model.specs.Selection as spec;
    ghost use Rattle.request_model.specs.contracts.document.GValue as gvalue;
    ghost use Rattle.request_model.specs.contracts.document.GPair as gpair;
    ghost use Rattle.request_model.specs.contracts.document.TypeRef as type_ref;
    ghost use Rattle.request_model.specs.contracts.document.Selection as selection;
    ghost use Rattle.gql_scope.specs.Codes.{members_code};
    ghost use Rattle.gql_scope.specs.Scopes.{AreVariables};

    ghost Value = { spec.Scope };

    ghost coded = { Prim.hlevel (
      codes,
      gvalue.the_row.coded,
      gpair.the_row.coded,
      type_ref.the_row.coded,
      selection.the_row.coded,
      members_code,
    ) };

    ghost view = { λ s. record {
      fragments = s.fragments;
      vars = s.vars.now;
      values = spec.given_values
          (data_of s.variables.now);
    } };

    ghost invariant = { λ s. AreVariables (spec.given_values (data_of s.variables.now)) s.vars.now s.names
        s.booleans.items };
}

fn literal_bool(value: &GValue) -> Option<bool>
    ensures { result ≡ spec.literal_bool value.now }
{
    match value {
        GValue::Bool(truth) => Some(*truth),
        _ => None,
    }
}

pub fn is_skip(directive: &Directive) -> bool
    ensures { result ≡ spec.is_skip directive.now }
{
    directive.name.as_str() == "skip"
}

pub fn is_include(directive: &Directive) -> bool
    ensures { result ≡ spec.is_include directive.now }
{
    directive.name.as_str() == "include"
}

fn variable_bool(variables: &Value, variable: &VarDef) -> Option<bool>
    ensures { result ≡ spec.variable_bool (given_values (view variables.now)) variable.now }
{
    match variables.get(variable.name.as_str()) {
        Some(given) => given.as_bool(),
        None => literal_bool(variable.default.as_ref()?),
    }
}

fn names_of(alloc: Global, vars: &[VarDef]) -> Result<NameIndex<'_>, NoMemory>
    ensures { IfOk result (λ names. names ≡ map (λ (v : VarDef). v.name) vars.now) }
{
    let mut names = NameIndex::new(alloc);
    for variable in vars {
        names.push(&variable.name)?;
    }
    Ok(names)
}

fn booleans_of(
    alloc: Global,
    variables: &Value,
    vars: &[VarDef],
) -> Result<Vec<Option<bool>>, NoMemory>
    ensures { IfOk result (λ booleans. booleans.items
        ≡ map (spec.variable_bool (given_values (view variables.now))) vars.now) }
{
    let mut booleans = Vec::new(alloc);
    for variable in vars {
        booleans.push(variable_bool(variables, variable))?;
    }
    Ok(booleans)
}

fn boolean_at(booleans: &[Option<bool>], place: usize) -> Option<bool>
    ensures { result ≡ option_flatten (slice_get booleans.now place) }
{
    booleans.get(place).copied().flatten()
}

impl<'a> Scope<'a> {
    /// The scope of an operation: the fragments of its document, its variables and the values that are given for them.
    /// Each variable's value is looked up here, once. It fails only when out of memory.
    pub fn of(
        alloc: Global,
        fragments: Fragments<'a>,
        vars: &'a [VarDef],
        variables: &'a Value,
    ) -> Result<Scope<'a>, NoMemory>
        ensures { IfOk result
            (λ s. s ≡ record {
              fragments = fragments.entry;
              vars = vars.now;
              values = given_values
                  (view variables.now);
            }) }
    {
        let names = names_of(alloc, vars)?;
        let booleans = booleans_of(alloc, variables, vars)?;
        Ok(Scope {
            fragments,
            vars,
            variables,
            names,
            booleans,
        })
    }

    /// The variables of the operation.
    pub fn vars(&self) -> &'a [VarDef]
        ensures { result.now ≡ self.now.vars }
    {
        self.vars
    }

    /// How many fragments the document has.
    pub fn fragment_count(&self) -> usize
        ensures { result ≡ length self.now.fragments }
    {
        self.fragments.count()
    }

    /// The first fragment of a name.
    pub fn fragment(&self, name: &str) -> Option<&Fragment<'a>>
        ensures { option_copied result ≡ spec.fragment_named self.now.fragments name.now }
    {
        self.fragments.named(name)
    }

    fn named_bool(&self, name: &str) -> Option<bool>
        ensures { result ≡ option_and_then (spec.variable_bool self.now.values)
            (find (λ (v : VarDef). bytes_eq name.now v.name) self.now.vars) }
    {
        match self.names.place(name) {
            Some(place) => boolean_at(self.booleans.as_slice(), place),
            None => None,
        }
    }

    fn bool_of(&self, value: &GValue) -> Option<bool>
        ensures { result ≡ spec.bool_of self.now value.now }
    {
        match value {
            GValue::Bool(truth) => Some(*truth),
            GValue::Var(name) => self.named_bool(name.as_str()),
            _ => None,
        }
    }

    fn condition_in(&self, args: &[GPair]) -> Option<bool>
        ensures { result ≡ spec.condition_in self.now args.now }
    {
        match args {
            [pair] => {
                if pair.name.as_str() == "if" {
                    self.bool_of(&pair.value)
                } else {
                    None
                }
            }
            _ => None,
        }
    }

    /// The condition of `@skip` or `@include`, which is its one argument `if`: a boolean, or a declared variable whose
    /// value is a boolean.
    pub fn condition(&self, directive: &Directive) -> Option<bool>
        ensures { result ≡ spec.condition self.now directive.now }
    {
        self.condition_in(directive.args.as_slice())
    }

    fn drops(&self, directive: &Directive) -> bool
        ensures { result ≡ spec.drops self.now directive.now }
    {
        match self.condition(directive) {
            Some(true) => is_skip(directive),
            Some(false) => is_include(directive),
            None => false,
        }
    }

    /// Whether the selection with these directives is dropped.
    pub fn is_dropped(&self, directives: &[Directive]) -> bool
        ensures { result ≡ spec.is_dropped self.now directives.now }
    {
        for directive in directives {
            if self.drops(directive) {
                return true;
            }
        }
        false
    }
}
