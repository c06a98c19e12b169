ghost use Rattle.std.specs.Prelude.{◌≡◌, ◌++◌, IfOk, OnOk, codes};
ghost use Rattle.json.specs.Print.{quoted};
ghost use Rattle.wire_model.specs.ServerMessages.{written, next_text, complete_text, error_text};

use json_out::write_text;
use outbox::OutText;
use scalar_val::NoMemory;
use std::alloc::Global;
use wire_model::ServerMsg;

fn append(out: &mut Vec<u8>, text: &str) -> Result<(), NoMemory>
    ensures { OnOk result (out.new.items ≡ out.old.items ++ text.now) }
{
    out.extend_from_slice(text.as_bytes())?;
    Ok(())
}

/// Appends what stands before a JSON string, and the string.
fn append_quoted(front: &str, text: &str, out: &mut Vec<u8>) -> Result<(), NoMemory>
    ensures { OnOk result (out.new.items ≡ out.old.items ++ (front.now ++ quoted text.now)) }
{
    append(out, front)?;
    write_text(text, out)
}

fn write_next(id: &str, payload: &[u8], out: &mut Vec<u8>) -> Result<(), NoMemory>
    ensures { OnOk result (out.new.items ≡ out.old.items ++ next_text id.now payload.now) }
{
    append_quoted("{\"type\":\"next\",\"id\":", id, out)?;
    append(out, ",\"payload\":")?;
    out.extend_from_slice(payload)?;
    append(out, "}")
}

fn write_error(id: &str, message: &str, code: &str, out: &mut Vec<u8>) -> Result<(), NoMemory>
    ensures { OnOk result (out.new.items ≡ out.old.items ++ error_text id.now message.now code.now) }
{
    append_quoted("{\"type\":\"error\",\"id\":", id, out)?;
    append_quoted(",\"payload\":[{\"message\":", message, out)?;
    append_quoted(",\"extensions\":{\"code\":", code, out)?;
    append(out, "}}]}")
}

fn write_complete(id: &str, out: &mut Vec<u8>) -> Result<(), NoMemory>
    ensures { OnOk result (out.new.items ≡ out.old.items ++ complete_text id.now) }
{
    append_quoted("{\"type\":\"complete\",\"id\":", id, out)?;
    append(out, "}")
}

fn append_message(msg: &ServerMsg<'_>, out: &mut Vec<u8>) -> Result<(), NoMemory>
    ensures { OnOk result (out.new.items ≡ out.old.items ++ written msg.now) }
{
    match msg {
        ServerMsg::Ack => append(out, "{\"type\":\"connection_ack\"}"),
        ServerMsg::Pong => append(out, "{\"type\":\"pong\"}"),
        ServerMsg::Next { id, payload } => write_next(id, payload, out),
        ServerMsg::Error { id, message, code } => write_error(id, message, code, out),
        ServerMsg::Complete { id } => write_complete(id, out),
    }
}

/// The bytes that a message has where no text in it needs an escape; more are no fault.
fn likely_len(msg: &ServerMsg<'_>) -> usize {
    match msg {
        ServerMsg::Ack => 25,
        ServerMsg::Pong => 15,
        ServerMsg::Next { id, payload } => payload
            .len()
            .saturating_add(id.len())
            .saturating_add(34),
        ServerMsg::Error { id, message, code } => {
            let texts = message.len().saturating_add(code.len());
            texts.saturating_add(id.len()).saturating_add(76)
        }
        ServerMsg::Complete { id } => id.len().saturating_add(27),
    }
}

/// The one text of a message. The bytes of its payload are copied once.
pub fn write_server(alloc: Global, msg: &ServerMsg<'_>) -> Result<OutText, NoMemory>
    ensures { IfOk result (λ text. text ≡ written msg.now) }
{
    let mut out = Vec::with_capacity(alloc, likely_len(msg))?;
    append_message(msg, &mut out)?;
    OutText::from_vec(alloc, out)
}
