ghost use Rattle.std.specs.Prelude.{◌≡◌, ◌≢◌, [], Option, Some, None, Err, IfOk, IfErr, option_map, map};
ghost use Rattle.std.specs.Str.{bytes_eq};
ghost use Rattle.std.specs.List.{list_any};
ghost use Rattle.serde_json.specs.Read.{read};
ghost use Rattle.serde_json.specs.View.{view as json_view};
ghost use Rattle.toml.specs.Data.{Data, as_str, as_bool, as_integer, get_member};
ghost use Rattle.toml.specs.View.{view, table_view};
ghost use Rattle.role_model.specs.MetadataForm.{required, optional, with_default, list_of, filled_list_of, filled_text};
ghost use Rattle.role_model.specs.MetadataForm.{json_text, kind_of, kind_named, integer_from, has_only};

use scalar_val::{Kind, List, NoMemory, Str};
use std::alloc::{AllocError, Global};
use toml::{Table, Value};

/// Why a text or a value isn't read.
#[derive(Clone, Copy, Debug, PartialEq, Eq)]
pub enum FormFault {
    /// It isn't of the form that is asked for.
    Form,
    /// Memory was refused.
    NoMemory,
}

impl From<NoMemory> for FormFault {
    fn from(_error: NoMemory) -> FormFault {
        FormFault::NoMemory
    }
}

impl From<AllocError> for FormFault {
    fn from(_error: AllocError) -> FormFault {
        FormFault::NoMemory
    }
}

/// A value that is read from one of TOML.
pub trait FromToml: Drop + Sized {
    ghost reads: { Data → Option Self };

    fn from_toml(alloc: Global, value: &Value) -> Result<Self, FormFault>
        ensures ok { IfOk result (λ x. reads (view value.now) ≡ Some x) }
        ensures bad { result ≡ Err FormFault.Form → reads (view value.now) ≡ None };
}

impl FromToml for Str {
    ghost reads = { as_str };

    fn from_toml(alloc: Global, value: &Value) -> Result<Str, FormFault> {
        match value.as_str() {
            Some(text) => match Str::of(alloc, text) {
                Ok(text) => Ok(text),
                Err(NoMemory) => Err(FormFault::NoMemory),
            },
            None => Err(FormFault::Form),
        }
    }
}

/// A list, each of whose items is read.
pub fn read_list<T: FromToml>(alloc: Global, value: &Value) -> Result<List<T>, FormFault>
    ensures ok { IfOk result (λ xs. list_of T.reads (view value.now) ≡ Some xs) }
    ensures bad { result ≡ Err FormFault.Form → list_of T.reads (view value.now) ≡ None }
{
    let Some(values) = value.as_array() else {
        return Err(FormFault::Form);
    };
    let mut items = List::new(alloc);
    for value in values {
        let item = T::from_toml(alloc, value)?;
        items.push(item).map_err(|_| FormFault::NoMemory)?;
    }
    Ok(items)
}

/// The value at a key.
fn find<'a>(table: &'a Table, key: &str) -> Option<&'a Value>
    ensures { option_map (λ v. view v.now) result ≡ get_member key.now (table_view table.now) }
{
    table.get(key)
}

/// Whether a key is one of these.
fn is_key(keys: &[&str], name: &str) -> bool
    ensures { result ≡ list_any (bytes_eq name.now) (map (λ k. k.now) keys.now) }
{
    for key in keys {
        if name == *key {
            return true;
        }
    }
    false
}

/// Whether a table has only these keys.
pub fn has_only(table: &Table, keys: &[&str]) -> bool
    ensures { result ≡ has_only (map (λ k. k.now) keys.now) (table_view table.now) }
{
    'members: for (name, _value) in table.iter() {
        if !is_key(keys, name.as_str()) {
            return false;
        }
    }
    true
}

fn filled_from(alloc: Global, value: &Value) -> Result<Str, FormFault>
    ensures ok { IfOk result (λ x. filled_text (view value.now) ≡ Some x) }
    ensures bad { result ≡ Err FormFault.Form → filled_text (view value.now) ≡ None }
{
    match value.as_str() {
        Some(text) => {
            if text == "" {
                return Err(FormFault::Form);
            }
            copy_text(alloc, text)
        }
        None => Err(FormFault::Form),
    }
}

fn copy_text(alloc: Global, text: &str) -> Result<Str, FormFault>
    ensures ok { IfOk result (λ x. x ≡ text.now) }
    ensures bad { result ≢ Err FormFault.Form }
{
    match Str::of(alloc, text) {
        Ok(text) => Ok(text),
        Err(NoMemory) => Err(FormFault::NoMemory),
    }
}

/// A text that holds JSON.
fn json_from(alloc: Global, value: &Value) -> Result<Str, FormFault>
    ensures ok { IfOk result (λ x. json_text (view value.now) ≡ Some x) }
    ensures bad { result ≡ Err FormFault.Form → json_text (view value.now) ≡ None }
{
    match value.as_str() {
        Some(text) => match read_json(alloc, text) {
            Ok(_json) => copy_text(alloc, text),
            Err(fault) => Err(fault),
        },
        None => Err(FormFault::Form),
    }
}

/// The value of a JSON text. `Form` where it is none, `NoMemory` where memory is refused.
pub fn read_json(alloc: Global, text: &str) -> Result<serde_json::Value, FormFault>
    ensures ok { IfOk result (λ v. read text.now ≡ Some (json_view v)) }
    ensures bad { result ≡ Err FormFault.Form → read text.now ≡ None }
{
    match serde_json::Value::from_str(alloc, text) {
        Ok(value) => Ok(value),
        Err(error) => {
            if error.is_memory() {
                Err(FormFault::NoMemory)
            } else {
                Err(FormFault::Form)
            }
        }
    }
}

fn kind_from(value: &Value) -> Result<Kind, FormFault>
    ensures ok { IfOk result (λ x. kind_of (view value.now) ≡ Some x) }
    ensures bad { IfErr result (λ _. kind_of (view value.now) ≡ None) }
{
    match value.as_str() {
        Some("boolean") => Ok(Kind::Bool),
        Some("int") => Ok(Kind::Int),
        Some("bigint") => Ok(Kind::Big),
        Some("text") => Ok(Kind::Text),
        Some("uuid") => Ok(Kind::Uuid),
        _ => Err(FormFault::Form),
    }
}

fn integer_from(value: &Value, least: u32, most: u32) -> Result<u32, FormFault>
    ensures ok { IfOk result (λ x. integer_from least most (view value.now) ≡ Some x) }
    ensures bad { IfErr result (λ _. integer_from least most (view value.now) ≡ None) }
{
    match value.as_integer() {
        Some(number) => {
            if least as i64 <= number && number <= most as i64 {
                Ok(number as u32)
            } else {
                Err(FormFault::Form)
            }
        }
        None => Err(FormFault::Form),
    }
}

pub fn text_at(alloc: Global, table: &Table, key: &str) -> Result<Str, FormFault>
    ensures ok { IfOk result (λ x. required as_str key.now (table_view table.now) ≡ Some x) }
    ensures bad { result ≡ Err FormFault.Form → required as_str key.now (table_view table.now) ≡ None }
{
    match find(table, key) {
        Some(value) => Str::from_toml(alloc, value),
        None => Err(FormFault::Form),
    }
}

pub fn filled_text_at(alloc: Global, table: &Table, key: &str) -> Result<Str, FormFault>
    ensures ok { IfOk result (λ x. required filled_text key.now (table_view table.now) ≡ Some x) }
    ensures bad { result ≡ Err FormFault.Form → required filled_text key.now (table_view table.now) ≡ None }
{
    match find(table, key) {
        Some(value) => filled_from(alloc, value),
        None => Err(FormFault::Form),
    }
}

pub fn json_at(alloc: Global, table: &Table, key: &str) -> Result<Str, FormFault>
    ensures ok { IfOk result (λ x. required json_text key.now (table_view table.now) ≡ Some x) }
    ensures bad { result ≡ Err FormFault.Form → required json_text key.now (table_view table.now) ≡ None }
{
    match find(table, key) {
        Some(value) => json_from(alloc, value),
        None => Err(FormFault::Form),
    }
}

pub fn kind_at(table: &Table, key: &str) -> Result<Kind, FormFault>
    ensures ok { IfOk result (λ x. required kind_of key.now (table_view table.now) ≡ Some x) }
    ensures bad { IfErr result (λ _. required kind_of key.now (table_view table.now) ≡ None) }
{
    match find(table, key) {
        Some(value) => kind_from(value),
        None => Err(FormFault::Form),
    }
}

pub fn version_at(table: &Table, key: &str) -> Result<i64, FormFault>
    ensures ok { IfOk result (λ x. required as_integer key.now (table_view table.now) ≡ Some x) }
    ensures bad { IfErr result (λ _. required as_integer key.now (table_view table.now) ≡ None) }
{
    match find(table, key) {
        Some(value) => match value.as_integer() {
            Some(number) => Ok(number),
            None => Err(FormFault::Form),
        },
        None => Err(FormFault::Form),
    }
}

pub fn list_at<T: FromToml>(alloc: Global, table: &Table, key: &str) -> Result<List<T>, FormFault>
    ensures ok { IfOk result (λ x. required (list_of T.reads) key.now (table_view table.now) ≡ Some x) }
    ensures bad { result ≡ Err FormFault.Form → required (list_of T.reads) key.now (table_view table.now) ≡ None }
{
    match find(table, key) {
        Some(value) => read_list(alloc, value),
        None => Err(FormFault::Form),
    }
}

fn filled_list_from<T: FromToml>(alloc: Global, value: &Value) -> Result<List<T>, FormFault>
    ensures ok { IfOk result (λ x. filled_list_of T.reads (view value.now) ≡ Some x) }
    ensures bad { result ≡ Err FormFault.Form → filled_list_of T.reads (view value.now) ≡ None }
{
    let items: List<T> = read_list(alloc, value)?;
    if items.is_empty() {
        return Err(FormFault::Form);
    }
    Ok(items)
}

pub fn filled_list_at<T: FromToml>(
    alloc: Global,
    table: &Table,
    key: &str,
) -> Result<List<T>, FormFault>
    ensures ok { IfOk result (λ x. required (filled_list_of T.reads) key.now (table_view table.now) ≡ Some x) }
    ensures bad { result ≡ Err FormFault.Form → required (filled_list_of T.reads) key.now (table_view table.now) ≡ None }
{
    match find(table, key) {
        Some(value) => filled_list_from(alloc, value),
        None => Err(FormFault::Form),
    }
}

pub fn list_or_none_at<T: FromToml>(
    alloc: Global,
    table: &Table,
    key: &str,
) -> Result<List<T>, FormFault>
    ensures ok { IfOk result (λ x. with_default (list_of T.reads) [] key.now (table_view table.now) ≡ Some x) }
    ensures bad { result ≡ Err FormFault.Form → with_default (list_of T.reads) [] key.now (table_view table.now) ≡ None }
{
    match find(table, key) {
        Some(value) => read_list(alloc, value),
        None => Ok(List::new(alloc)),
    }
}

pub fn bool_or(table: &Table, key: &str, default: bool) -> Result<bool, FormFault>
    ensures ok { IfOk result (λ x. with_default as_bool default key.now (table_view table.now) ≡ Some x) }
    ensures bad { IfErr result (λ _. with_default as_bool default key.now (table_view table.now) ≡ None) }
{
    match find(table, key) {
        Some(value) => match value.as_bool() {
            Some(told) => Ok(told),
            None => Err(FormFault::Form),
        },
        None => Ok(default),
    }
}

pub fn integer_or(
    table: &Table,
    key: &str,
    least: u32,
    most: u32,
    default: u32,
) -> Result<u32, FormFault>
    ensures ok { IfOk result (λ x. with_default (integer_from least most) default key.now (table_view table.now) ≡ Some x) }
    ensures bad { IfErr result (λ _. with_default (integer_from least most) default key.now (table_view table.now) ≡ None) }
{
    match find(table, key) {
        Some(value) => integer_from(value, least, most),
        None => Ok(default),
    }
}

pub fn integer_if_any(
    table: &Table,
    key: &str,
    least: u32,
    most: u32,
) -> Result<Option<u32>, FormFault>
    ensures ok { IfOk result (λ x. optional (integer_from least most) key.now (table_view table.now) ≡ Some x) }
    ensures bad { IfErr result (λ _. optional (integer_from least most) key.now (table_view table.now) ≡ None) }
{
    match find(table, key) {
        Some(value) => Ok(Some(integer_from(value, least, most)?)),
        None => Ok(None),
    }
}

pub fn text_if_any(alloc: Global, table: &Table, key: &str) -> Result<Option<Str>, FormFault>
    ensures ok { IfOk result (λ x. optional as_str key.now (table_view table.now) ≡ Some x) }
    ensures bad { result ≡ Err FormFault.Form → optional as_str key.now (table_view table.now) ≡ None }
{
    match find(table, key) {
        Some(value) => Ok(Some(Str::from_toml(alloc, value)?)),
        None => Ok(None),
    }
}

pub fn filled_text_if_any(alloc: Global, table: &Table, key: &str) -> Result<Option<Str>, FormFault>
    ensures ok { IfOk result (λ x. optional filled_text key.now (table_view table.now) ≡ Some x) }
    ensures bad { result ≡ Err FormFault.Form → optional filled_text key.now (table_view table.now) ≡ None }
{
    match find(table, key) {
        Some(value) => Ok(Some(filled_from(alloc, value)?)),
        None => Ok(None),
    }
}
