use crate::node::{JNode, JPair};
use crate::text::{write, write_text};
use scalar_val::{List, NoMemory, Str, Val};
use std::alloc::Global;
use std::test::Fail;

fn text_node(alloc: Global, text: &str) -> Result<JNode, NoMemory> {
    Ok(JNode::Scalar(Val::Text(Str::of(alloc, text)?)))
}

fn list(alloc: Global, scalars: [Val; 4]) -> Result<JNode, NoMemory> {
    let mut items = List::new(alloc);
    for scalar in Vec::from_array(alloc, scalars)? {
        if items.push(JNode::Scalar(scalar)).is_err() {
            return Err(NoMemory);
        }
    }
    Ok(JNode::List(items))
}

fn object(alloc: Global, first: (&str, JNode), second: (&str, JNode)) -> Result<JNode, NoMemory> {
    let mut pairs = List::new(alloc);
    for (key, value) in Vec::from_array(alloc, [first, second])? {
        let key = Str::of(alloc, key)?;
        if pairs.push(JPair { key, value }).is_err() {
            return Err(NoMemory);
        }
    }
    Ok(JNode::Object(pairs))
}

fn expect(alloc: Global, node: &JNode, expected: &str) -> Result<bool, NoMemory> {
    Ok(write(alloc, node)?.as_slice() == expected.as_bytes())
}

#[test]
fn a_tree_of_every_kind_of_node(rt: HostRuntime) -> Result<(), Fail> {
    let alloc = rt.alloc();
    let quote = Val::Text(Str::of(alloc, "\u{1}\"")?);
    let scalars = list(alloc, [Val::Null, Val::Bool(true), Val::Int(-5), quote])?;
    let nothing = JNode::List(List::new(alloc));
    let node = object(alloc, ("a", scalars), ("é\n", nothing))?;
    assert!(rt;
        expect(
            alloc,
            &node,
            "{\"a\":[null,true,-5,\"\\u0001\\\"\"],\"é\\n\":[]}"
        )?
    );
    Ok(())
}

#[test]
fn scalars_at_their_limits(rt: HostRuntime) -> Result<(), Fail> {
    let alloc = rt.alloc();
    let number = 0x123e4567_e89b_12d3_a456_4266141740ab;
    let scalars = [
        Val::Uuid(number),
        Val::Big(i64::MIN),
        Val::Int(i32::MAX),
        Val::Bool(false),
    ];
    let node = list(alloc, scalars)?;
    let text = "[\"123e4567-e89b-12d3-a456-4266141740ab\",-9223372036854775808,2147483647,false]";
    assert!(rt; expect(alloc, &node, text)?);
    Ok(())
}

#[test]
fn objects_with_nothing_in_them(rt: HostRuntime) -> Result<(), Fail> {
    let alloc = rt.alloc();
    let inner = JNode::Object(List::new(alloc));
    let node = object(alloc, ("", inner), ("\\/", text_node(alloc, "")?))?;
    assert!(rt; expect(alloc, &node, "{\"\":{},\"\\\\/\":\"\"}")?);
    Ok(())
}

#[test]
fn a_text_is_appended(rt: HostRuntime) -> Result<(), Fail> {
    let mut out = Vec::new(rt.alloc());
    out.push(b'x')?;
    write_text("a\tb\u{7f}\u{1f}", &mut out)?;
    assert_eq!(rt; out.as_slice(), "x\"a\\tb\u{7f}\\u001f\"".as_bytes());
    Ok(())
}
