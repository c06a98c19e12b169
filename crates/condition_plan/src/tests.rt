use crate::{
    Places, argument, batch, count, cursor_pairs, descends, initial_column, key_condition, operand,
    orders, permission, where_filter,
};
use gql_ast::parse;
use gql_lex::tokens;
use name_set::NameSet;
use plan_model::{Filter, Items, Op, Operand, Order};
use query_model::{SessionSlot, SessionSlotList};
use request_model::{Definition, Document, GPair, Selection};
use role_schema::{Meta, RoleView};
use scalar_val::{Kind, NoMemory, Str, Val};
use std::alloc::Global;
use std::test::Fail;

const USERS: &str = r#"version = 1
[[tables]]
name = "user"
key = ["id"]
columns = [
  { name = "id", type = "int" },
  { name = "name", type = "text", nullable = true },
  { name = "secret", type = "text" },
]

[[tables.select]]
role = "reader"
columns = ["id", "name"]
filter = '''
{"_or":[
  {"id":{"_eq":"X-Hasura-User-Id"}},
  {"_not":{"name":{"_in":["a","b"]}}},
  {"name":{"_lt":"x-hasura-name"}},
  {"_and":[{"id":{"_is_null":false}}]}
]}'''
"#;

/// The filter of the role `reader`, with the slots of the tests.
const READERS: &str =
    "(and (or (and (and (0 eq @2))) (and (not (and (and (1 in 'a' 'b'))))) (and (and (1 lt @1))) \
     (and (and (and (and (0 null false)))))))";

fn meta(alloc: Global) -> Result<Meta, Fail> {
    match Meta::read(alloc, USERS.as_bytes()) {
        Ok(meta) => Ok(meta),
        Err(_fault) => Err(Fail::from("no metadata")),
    }
}

/// The variables `ids` and `n`, whose slots are 0 and 1.
fn names(alloc: Global) -> Result<NameSet, Fail> {
    let mut names = NameSet::new(alloc);
    names.insert(alloc, Str::of(alloc, "ids")?)?;
    names.insert(alloc, Str::of(alloc, "n")?)?;
    Ok(names)
}

fn slot(alloc: Global, name: &str, kind: Kind) -> Result<SessionSlot, NoMemory> {
    let name = Str::of(alloc, name)?;
    Ok(SessionSlot { name, kind })
}

/// Slots in order of name and then kind.
fn slots(alloc: Global) -> Result<SessionSlotList, Fail> {
    let mut slots = SessionSlotList::new(alloc);
    slots.add(slot(alloc, "x-hasura-a", Kind::Text)?)?;
    slots.add(slot(alloc, "x-hasura-name", Kind::Text)?)?;
    slots.add(slot(alloc, "x-hasura-user-id", Kind::Int)?)?;
    slots.add(slot(alloc, "x-hasura-user-id", Kind::Text)?)?;
    Ok(slots)
}

fn places<'a>(
    view: &'a RoleView<'a>,
    names: &'a NameSet,
    slots: &'a [SessionSlot],
) -> Result<Places<'a>, Fail> {
    if names.names().len() > 4 || slots.len() > 4 {
        return Err(Fail::from("too many slots"));
    }
    Ok(Places { view, names, slots })
}

/// The document of one operation with one field, which has these arguments in parentheses.
fn document(alloc: Global, arguments: &str) -> Result<Document, Fail> {
    let text = format!(in alloc; "{{f{arguments}}}")?;
    let Ok(run) = tokens(alloc, text.as_str()) else {
        return Err(Fail::from("no memory"));
    };
    match parse(alloc, text.as_str(), &run) {
        Ok(document) => Ok(document),
        Err(_fault) => Err(Fail::from("no document")),
    }
}

fn args_of(document: &Document) -> &[GPair] {
    match document.definitions.get(0) {
        Some(Definition::Operation { select, .. }) => match select.get(0) {
            Some(Selection::Field { args, .. }) => args.as_slice(),
            _ => &[],
        },
        _ => &[],
    }
}

fn put(out: &mut String, text: &str) -> Result<(), Fail> {
    out.push_str(text)?;
    Ok(())
}

fn put_number(alloc: Global, out: &mut String, before: &str, number: u32) -> Result<(), Fail> {
    put(out, before)?;
    put(out, number.to_string(alloc)?.as_str())
}

fn put_value(alloc: Global, out: &mut String, value: &Val) -> Result<(), Fail> {
    match value {
        Val::Null => put(out, " null"),
        Val::Bool(true) => put(out, " true"),
        Val::Bool(false) => put(out, " false"),
        Val::Int(number) => {
            put(out, " ")?;
            put(out, number.to_string(alloc)?.as_str())
        }
        Val::Text(text) => {
            put(out, " '")?;
            put(out, text.as_str())?;
            put(out, "'")
        }
        _ => put(out, " other"),
    }
}

/// A value, `$` with the slot of a variable, or `@` with that of a session variable.
fn put_operand(alloc: Global, out: &mut String, operand: &Operand) -> Result<(), Fail> {
    match operand {
        Operand::Const(value) => put_value(alloc, out, value),
        Operand::Var(slot) => put_number(alloc, out, " $", *slot),
        Operand::Sess(slot) => put_number(alloc, out, " @", *slot),
    }
}

fn put_items(alloc: Global, out: &mut String, items: &Items) -> Result<(), Fail> {
    match items {
        Items::Var(slot) => put_number(alloc, out, " all $", *slot),
        Items::Each(operands) => {
            for operand in operands.as_slice() {
                put_operand(alloc, out, operand)?;
            }
            Ok(())
        }
    }
}

fn word(op: Op) -> &'static str {
    match op {
        Op::Eq => " eq",
        Op::Neq => " neq",
        Op::Gt => " gt",
        Op::Gte => " gte",
        Op::Lt => " lt",
        Op::Lte => " lte",
    }
}

fn put_leaf(alloc: Global, out: &mut String, filter: &Filter) -> Result<(), Fail> {
    match filter {
        Filter::Cmp {
            column,
            op,
            operand,
        } => {
            put_number(alloc, out, "(", *column)?;
            put(out, word(*op))?;
            put_operand(alloc, out, operand)?;
        }
        Filter::Among {
            column,
            negated,
            items,
        } => {
            put_number(alloc, out, "(", *column)?;
            put(out, if *negated { " nin" } else { " in" })?;
            put_items(alloc, out, items)?;
        }
        Filter::IsNull { column, want } => {
            put_number(alloc, out, "(", *column)?;
            put(out, " null")?;
            put_operand(alloc, out, want)?;
        }
        _ => {}
    }
    put(out, ")")
}

#[cycle(shown)]
fn put_filter(alloc: Global, out: &mut String, filter: &Filter) -> Result<(), Fail> {
    match filter {
        Filter::And(parts) => put_parts(alloc, out, "(and", parts.as_slice()),
        Filter::Or(parts) => put_parts(alloc, out, "(or", parts.as_slice()),
        Filter::Not(part) => {
            put(out, "(not ")?;
            put_filter(alloc, out, part.get())?;
            put(out, ")")
        }
        _ => put_leaf(alloc, out, filter),
    }
}

#[cycle(shown)]
fn put_parts(alloc: Global, out: &mut String, name: &str, parts: &[Filter]) -> Result<(), Fail> {
    put(out, name)?;
    for part in parts {
        put(out, " ")?;
        put_filter(alloc, out, part)?;
    }
    put(out, ")")
}

/// The condition of a field's argument `where`.
fn shown_where(alloc: Global, places: &Places<'_>, arguments: &str) -> Result<String, Fail> {
    let document = document(alloc, arguments)?;
    let filter = where_filter(alloc, places, 0, args_of(&document))?;
    let mut out = String::new(alloc);
    put_filter(alloc, &mut out, &filter)?;
    Ok(out)
}

/// The first case whose condition is another.
fn wrong_where(alloc: Global, cases: &[(&str, &str)]) -> Result<Option<usize>, Fail> {
    let (meta, names) = (meta(alloc)?, names(alloc)?);
    let view = meta.view("reader");
    let places = places(&view, &names, &[])?;
    for (index, (arguments, expected)) in cases.iter().enumerate() {
        if shown_where(alloc, &places, arguments)?.as_str() != *expected {
            return Ok(Some(index));
        }
    }
    Ok(None)
}

#[test]
fn conditions_have_slots_for_variables(rt: HostRuntime) -> Result<(), Fail> {
    let cases = [
        ("", "(and)"),
        ("(where:null)", "(and)"),
        ("(where:{})", "(and)"),
        ("(limit:1,where:{id:{_eq:1}})", "(and (and (0 eq 1)))"),
        (
            "(where:{id:{_gt:$n,_lte:7},name:{_neq:\"x\"}})",
            "(and (and (0 gt $1) (0 lte 7)) (and (1 neq 'x')))",
        ),
        (
            "(where:{_or:[{id:{_lt:1}},{_not:{id:{_gte:3}}}]})",
            "(and (or (and (and (0 lt 1))) (and (not (and (and (0 gte 3)))))))",
        ),
        (
            "(where:{_and:{name:{_is_null:true}},_or:[]})",
            "(and (and (and (and (1 null true)))) (or))",
        ),
        (
            "(where:{id:{_in:[1,$n,null]},name:{_nin:\"x\"}})",
            "(and (and (0 in 1 $1 null)) (and (1 nin 'x')))",
        ),
        (
            "(where:{id:{_nin:$ids,_in:[]}})",
            "(and (and (0 nin all $0) (0 in)))",
        ),
        (
            "(where:{id:{_eq:99999999999},name:{_eq:1}})",
            "(and (and (0 eq null)) (and (1 eq null)))",
        ),
        (
            "(where:{secret:{_eq:\"x\"},id:{_like:1}})",
            "(and (and) (and (and)))",
        ),
    ];
    if let Some(index) = wrong_where(rt.alloc(), &cases)? {
        println!(rt; "case {index}")?;
        return Err(Fail::from("another condition"));
    }
    Ok(())
}

fn put_limit(
    alloc: Global,
    out: &mut String,
    places: &Places<'_>,
    args: &[GPair],
) -> Result<(), Fail> {
    match count(alloc, places, "limit", args)? {
        Some(limit) => put_operand(alloc, out, &limit),
        None => Ok(()),
    }
}

fn put_batch(
    alloc: Global,
    out: &mut String,
    places: &Places<'_>,
    args: &[GPair],
) -> Result<(), Fail> {
    let batch = batch(alloc, places, args)?;
    put_operand(alloc, out, &batch)
}

fn put_text(
    alloc: Global,
    out: &mut String,
    places: &Places<'_>,
    args: &[GPair],
) -> Result<(), Fail> {
    match argument("x", args) {
        Some(value) => {
            let text = operand(alloc, places, Kind::Text, value)?;
            put_operand(alloc, out, &text)
        }
        None => Ok(()),
    }
}

fn put_key(
    alloc: Global,
    out: &mut String,
    places: &Places<'_>,
    args: &[GPair],
) -> Result<(), Fail> {
    let filter = key_condition(alloc, places, 0, 0, args)?;
    put_filter(alloc, out, &filter)
}

/// The key's condition on the first column, the numbers of `limit` and of `batch_size`, and the value of `x` as a text.
fn shown_numbers(alloc: Global, places: &Places<'_>, arguments: &str) -> Result<String, Fail> {
    let document = document(alloc, arguments)?;
    let args = args_of(&document);
    let mut out = String::new(alloc);
    put_key(alloc, &mut out, places, args)?;
    put_limit(alloc, &mut out, places, args)?;
    put_batch(alloc, &mut out, places, args)?;
    put_text(alloc, &mut out, places, args)?;
    Ok(out)
}

/// The first case whose numbers are others.
fn wrong_numbers(alloc: Global, cases: &[(&str, &str)]) -> Result<Option<usize>, Fail> {
    let (meta, names) = (meta(alloc)?, names(alloc)?);
    let view = meta.view("reader");
    let places = places(&view, &names, &[])?;
    for (index, (arguments, expected)) in cases.iter().enumerate() {
        if shown_numbers(alloc, &places, arguments)?.as_str() != *expected {
            return Ok(Some(index));
        }
    }
    Ok(None)
}

#[test]
fn numbers_and_keys(rt: HostRuntime) -> Result<(), Fail> {
    let cases = [
        ("", "(or) null"),
        ("(limit:null,batch_size:5)", "(or) 5"),
        ("(limit:0,id:7)", "(0 eq 7) 0 null"),
        ("(limit:$n,id:$n,batch_size:$n)", "(0 eq $1) $1 $1"),
        ("(x:\"b\",x:\"c\")", "(or) null 'b'"),
        ("(x:2)", "(or) null null"),
    ];
    if let Some(index) = wrong_numbers(rt.alloc(), &cases)? {
        println!(rt; "case {index}")?;
        return Err(Fail::from("other numbers"));
    }
    Ok(())
}

fn put_order(alloc: Global, out: &mut String, order: Order) -> Result<(), Fail> {
    put_number(alloc, out, " ", order.column)?;
    put(out, if order.descending { " desc" } else { " asc" })?;
    put(out, if order.nulls_first { " first" } else { " last" })
}

fn shown_orders(alloc: Global, arguments: &str) -> Result<String, Fail> {
    let meta = meta(alloc)?;
    let view = meta.view("reader");
    let document = document(alloc, arguments)?;
    let mut out = String::new(alloc);
    for order in orders(alloc, &view, 0, args_of(&document))?.as_slice() {
        put_order(alloc, &mut out, *order)?;
    }
    Ok(out)
}

#[test]
fn orders_put_nulls_as_their_names_say(rt: HostRuntime) -> Result<(), Fail> {
    let alloc = rt.alloc();
    for (arguments, expected) in [
        ("", ""),
        ("(order_by:null)", ""),
        ("(order_by:{name:asc})", " 1 asc last"),
        (
            "(order_by:[{name:desc,id:asc},{id:desc}])",
            " 1 desc first 0 asc last 0 desc first",
        ),
        (
            "(order_by:{name:asc_nulls_first,id:asc_nulls_last})",
            " 1 asc first 0 asc last",
        ),
        (
            "(order_by:{name:desc_nulls_first,id:desc_nulls_last})",
            " 1 desc first 0 desc last",
        ),
        ("(order_by:[{secret:asc},{id:up},{id:asc}])", " 0 asc last"),
    ] {
        assert!(rt;
            shown_orders(alloc, arguments)?.as_str() == expected,
            "{arguments}"
        );
    }
    Ok(())
}

/// The column of a stream's cursor, whether it goes down, and how many pairs the cursor has.
fn cursor_of(alloc: Global, arguments: &str) -> Result<(u32, bool, usize), Fail> {
    let meta = meta(alloc)?;
    let view = meta.view("reader");
    let document = document(alloc, arguments)?;
    let args = args_of(&document);
    Ok((
        initial_column(&view, 0, args),
        descends(args),
        cursor_pairs(args).len(),
    ))
}

#[test]
fn cursors_of_streams(rt: HostRuntime) -> Result<(), Fail> {
    let alloc = rt.alloc();
    for (arguments, column, down, pairs) in [
        ("", 0, false, 0),
        ("(cursor:{initial_value:{name:\"a\"}})", 1, false, 1),
        (
            "(cursor:[{initial_value:{name:\"a\"},ordering:DESC}])",
            1,
            true,
            2,
        ),
        ("(cursor:{ordering:ASC,initial_value:{id:1}})", 0, false, 2),
        (
            "(cursor:{ordering:null,initial_value:{name:$n}})",
            1,
            false,
            2,
        ),
    ] {
        assert!(rt;
            cursor_of(alloc, arguments)? == (column, down, pairs),
            "{arguments}"
        );
    }
    Ok(())
}

fn shown_permission(alloc: Global, places: &Places<'_>) -> Result<String, Fail> {
    let mut out = String::new(alloc);
    match permission(alloc, places, 0)? {
        Some(filter) => put_filter(alloc, &mut out, &filter)?,
        None => put(&mut out, "none")?,
    }
    Ok(out)
}

fn permission_of(
    alloc: Global,
    meta: &Meta,
    slots: &[SessionSlot],
    role: &str,
) -> Result<String, Fail> {
    let names = NameSet::new(alloc);
    let view = meta.view(role);
    let places = places(&view, &names, slots)?;
    shown_permission(alloc, &places)
}

#[test]
fn a_permission_has_the_places_of_session_variables(rt: HostRuntime) -> Result<(), Fail> {
    let alloc = rt.alloc();
    let (meta, slots) = (meta(alloc)?, slots(alloc)?);
    let reader = permission_of(alloc, &meta, slots.as_slice(), "reader")?;
    let admin = permission_of(alloc, &meta, slots.as_slice(), "admin")?;
    assert!(rt; reader.as_str() == READERS);
    assert!(rt; admin.as_str() == "none");
    Ok(())
}
