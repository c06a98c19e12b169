ghost use Rattle.std.specs.Prelude.{◌≡◌, ◌≤◌, ◌++◌, ◌-◌, ◌∷◌, OnOk, IfOk, codes, decimal};
ghost use Rattle.std.specs.List.{flat_map, range_with_len};
ghost use Rattle.wire_model.specs.Generated.{
  ended,
  metadata_lines,
  insert_text,
  insert_line,
  asked,
  subscribe_line,
  connection_lines,
  changed,
  update_line,
  round_lines,
};
ghost use Rattle.load_gen.specs.Generated.{generated};

use crate::parts::{append, append_line, append_number};
use scalar_val::{Bytes, NoMemory};
use std::alloc::Global;

/// The script of so many subscribers, from 1 to 1,000, line by line: the metadata of one table of
/// users; one transaction that inserts as many users; as many connections, of which each subscribes to one user; a
/// poll; ten rounds of a change of one name and a poll; and a report.
#[tactic(auto, using(crate::proofs::Scripts::script_parts))]
pub fn load_script(alloc: Global, n: u32) -> Result<Bytes, NoMemory>
    requires some { 1 ≤ n }
    requires few { n ≤ 1000 }
    ensures { IfOk result (λ text. text ≡ generated n) }
{
    let mut out = Vec::new(alloc);
    append_metadata(&mut out)?;
    append_inserts(&mut out, n)?;
    append_connections(&mut out, n)?;
    append_line(&mut out, b"poll")?;
    append_rounds(&mut out, n)?;
    append_line(&mut out, b"report")?;
    Ok(Bytes::of(out))
}

fn append_metadata(out: &mut Vec<u8>) -> Result<(), NoMemory>
    ensures { OnOk result (out.new.items ≡ out.old.items ++ flat_map ended metadata_lines) }
{
    append(
        out,
        b"version = 1\n[[tables]]\nname = \"user\"\nkey = [\"id\"]\ncolumns = [{ name = \"id\", type = \"int\" }, { name = \"name\", type = \"text\", nullable = true }]\n---\n",
    )
}

/// The transaction that inserts the users.
fn append_inserts(out: &mut Vec<u8>, n: u32) -> Result<(), NoMemory>
    requires some { 1 ≤ n }
    requires few { n ≤ 1000 }
    ensures { OnOk result (out.new.items ≡ out.old.items ++ ended (insert_line n)) }
{
    append(out, b"commit [")?;
    append_insert(out, 1)?;
    append_more_inserts(out, n)?;
    append_line(out, b"]")
}

/// The users behind the first one, each behind a comma.
fn append_more_inserts(out: &mut Vec<u8>, n: u32) -> Result<(), NoMemory>
    requires some { 1 ≤ n }
    requires few { n ≤ 1000 }
    ensures { OnOk result (out.new.items ≡ out.old.items ++ flat_map (λ i. 44 ∷ insert_text i) (range_with_len 2 (n - 1))) }
{
    for user in 2..n + 1 {
        append_next_insert(out, user)?;
    }
    Ok(())
}

fn append_next_insert(out: &mut Vec<u8>, user: u32) -> Result<(), NoMemory>
    ensures { OnOk result (out.new.items ≡ out.old.items ++ 44 ∷ insert_text user) }
{
    append(out, b",")?;
    append_insert(out, user)
}

fn append_insert(out: &mut Vec<u8>, user: u32) -> Result<(), NoMemory>
    ensures { OnOk result (out.new.items ≡ out.old.items ++ insert_text user) }
{
    append(out, b"{\"insert\":\"user\",\"row\":{\"id\":")?;
    append_number(out, user)?;
    append(out, b",\"name\":\"u")?;
    append_number(out, user)?;
    append(out, b"\"}}")
}

/// The lines of the connections, in order.
fn append_connections(out: &mut Vec<u8>, n: u32) -> Result<(), NoMemory>
    requires some { 1 ≤ n }
    requires few { n ≤ 1000 }
    ensures { OnOk result (out.new.items ≡ out.old.items
        ++ flat_map (λ c. flat_map ended (connection_lines n c)) (range_with_len 1 n)) }
{
    for conn in 1..n + 1 {
        append_connection(out, n, conn)?;
    }
    Ok(())
}

/// A connection opens, is acknowledged and subscribes.
fn append_connection(out: &mut Vec<u8>, n: u32, conn: u32) -> Result<(), NoMemory>
    requires some { 1 ≤ n }
    requires few { conn ≤ 1000 }
    ensures { OnOk result (out.new.items ≡ out.old.items ++ flat_map ended (connection_lines n conn)) }
{
    append_open(out, conn)?;
    append_init(out, conn)?;
    append_subscribe(out, n, conn)
}

fn append_open(out: &mut Vec<u8>, conn: u32) -> Result<(), NoMemory>
    ensures { OnOk result (out.new.items ≡ out.old.items ++ ended (codes "open " ++ decimal conn)) }
{
    append(out, b"open ")?;
    append_number(out, conn)?;
    append_line(out, b"")
}

fn append_init(out: &mut Vec<u8>, conn: u32) -> Result<(), NoMemory>
    ensures { OnOk result (out.new.items ≡ out.old.items
        ++ ended (codes "recv " ++ decimal conn ++ codes " {\"type\":\"connection_init\"}")) }
{
    append(out, b"recv ")?;
    append_number(out, conn)?;
    append_line(out, b" {\"type\":\"connection_init\"}")
}

/// The user that a connection asks for.
fn asked(n: u32, conn: u32) -> u32
    requires some { 1 ≤ n }
    requires few { conn ≤ 1000 }
    ensures { result ≡ asked n conn }
{
    1 + (7 * conn) % n
}

fn append_subscribe(out: &mut Vec<u8>, n: u32, conn: u32) -> Result<(), NoMemory>
    requires some { 1 ≤ n }
    requires few { conn ≤ 1000 }
    ensures { OnOk result (out.new.items ≡ out.old.items ++ ended (subscribe_line n conn)) }
{
    append(out, b"recv ")?;
    append_number(out, conn)?;
    append(
        out,
        b" {\"type\":\"subscribe\",\"id\":\"s\",\"payload\":{\"query\":\"subscription($i: Int!) { user_by_pk(id: $i) { id name } }\",\"variables\":{\"i\":",
    )?;
    append_number(out, asked(n, conn))?;
    append_line(out, b"}}}")
}

/// The ten rounds.
fn append_rounds(out: &mut Vec<u8>, n: u32) -> Result<(), NoMemory>
    requires some { 1 ≤ n }
    requires few { n ≤ 1000 }
    ensures { OnOk result (out.new.items ≡ out.old.items
        ++ flat_map (λ r. flat_map ended (round_lines n r)) (range_with_len 1 10)) }
{
    for round in 1..11 {
        append_round(out, n, round)?;
    }
    Ok(())
}

/// A change of one name, and a poll.
fn append_round(out: &mut Vec<u8>, n: u32, round: u32) -> Result<(), NoMemory>
    requires some { 1 ≤ n }
    requires few { round ≤ 10 }
    ensures { OnOk result (out.new.items ≡ out.old.items ++ flat_map ended (round_lines n round)) }
{
    append_update(out, n, round)?;
    append_line(out, b"poll")
}

/// The user whose name a round changes.
fn changed(n: u32, round: u32) -> u32
    requires some { 1 ≤ n }
    requires few { round ≤ 10 }
    ensures { result ≡ changed n round }
{
    1 + (round * round) % n
}

fn append_update(out: &mut Vec<u8>, n: u32, round: u32) -> Result<(), NoMemory>
    requires some { 1 ≤ n }
    requires few { round ≤ 10 }
    ensures { OnOk result (out.new.items ≡ out.old.items ++ ended (update_line n round)) }
{
    append(out, b"commit [{\"update\":\"user\",\"key\":{\"id\":")?;
    append_number(out, changed(n, round))?;
    append(out, b"},\"set\":{\"name\":\"r")?;
    append_number(out, round)?;
    append_line(out, b"\"}}]")
}
