ghost use Rattle.std.specs.Prelude.{◌≡◌, ◌++◌, ◌∷◌, map, IfOk, OnOk, OnErr};
ghost use Rattle.std.specs.List.{flat_map};
ghost use Rattle.json.specs.Print.{quoted};
ghost use Rattle.scalar_val.specs.Joined.{parted};
ghost use Rattle.json_out.specs.Text.{text, pair_text};

use crate::node::{JNode, JPair};
use scalar_val::{Bytes, NoMemory, write_json, write_quoted};
use std::alloc::Global;

/// The compact JSON text of a node.
pub fn write(alloc: Global, node: &JNode) -> Result<Bytes, NoMemory>
    ensures { IfOk result (λ bytes. bytes ≡ text node.now) }
{
    let mut out = Vec::new(alloc);
    write_node(node, &mut out)?;
    Ok(Bytes::of(out))
}

/// Appends a text as a JSON string as `serde_json` writes it. For want of memory nothing is appended.
pub fn write_text(text: &str, out: &mut Vec<u8>) -> Result<(), NoMemory>
    ensures ok { OnOk result (out.new.items ≡ out.old.items ++ quoted text.now) }
    ensures err { OnErr result (out.new.items ≡ out.old.items) }
{
    write_quoted(text, out)
}

#[cycle(write)]
fn write_node(node: &JNode, out: &mut Vec<u8>) -> Result<(), NoMemory>
    ensures { OnOk result (out.new.items ≡ out.old.items ++ text node.now) }
{
    match node {
        JNode::Scalar(val) => write_json(val, out),
        JNode::List(items) => {
            out.push(b'[')?;
            write_list(items.as_slice(), out)?;
            out.push(b']')?;
            Ok(())
        }
        JNode::Object(pairs) => {
            out.push(b'{')?;
            write_pairs(pairs.as_slice(), out)?;
            out.push(b'}')?;
            Ok(())
        }
    }
}

#[cycle(write)]
fn write_list(items: &[JNode], out: &mut Vec<u8>) -> Result<(), NoMemory>
    ensures { OnOk result (out.new.items ≡ out.old.items ++ parted 44 (map text items.now)) }
{
    let mut first = true;
    for item in items {
        if first {
            first = false;
        } else {
            out.push(b',')?;
        }
        write_node(item, out)?;
    }
    Ok(())
}

#[cycle(write)]
fn write_pair(pair: &JPair, out: &mut Vec<u8>) -> Result<(), NoMemory>
    ensures { OnOk result (out.new.items ≡ out.old.items ++ pair_text pair.now) }
{
    write_quoted(pair.key.as_str(), out)?;
    out.push(b':')?;
    write_node(&pair.value, out)
}

#[cycle(write)]
fn write_pairs(pairs: &[JPair], out: &mut Vec<u8>) -> Result<(), NoMemory>
    ensures { OnOk result (out.new.items ≡ out.old.items ++ parted 44 (map pair_text pairs.now)) }
{
    let mut first = true;
    for pair in pairs {
        if first {
            first = false;
        } else {
            out.push(b',')?;
        }
        write_pair(pair, out)?;
    }
    Ok(())
}
