use crate::step;
use json_out::Request;
use scalar_val::{NoMemory, Str};
use serde_json::Value;
use std::alloc::Global;
use std::test::Fail;
use wire_model::{Action, Phase};
use ws_message::ClientMsg;

fn subscribe(alloc: Global) -> Result<ClientMsg, NoMemory> {
    let request = Request {
        query: Str::of(alloc, "subscription { user { id } }")?,
        operation: None,
        variables: Value::Null,
    };
    let id = Str::of(alloc, "a")?;
    Ok(ClientMsg::Subscribe { id, request })
}

fn complete(alloc: Global) -> Result<ClientMsg, NoMemory> {
    let id = Str::of(alloc, "a")?;
    Ok(ClientMsg::Complete { id })
}

/// Whether a message gives these actions on a fresh connection, on one that is acknowledged, and there with a live id.
fn gives(msg: &ClientMsg, fresh: Action, acked: Action, live: Action) -> bool {
    let closed = step(&Phase::Closed, msg, true) == Action::Ignore;
    let early = step(&Phase::Fresh, msg, false) == fresh && step(&Phase::Fresh, msg, true) == fresh;
    let later = step(&Phase::Acked, msg, false) == acked && step(&Phase::Acked, msg, true) == live;
    closed && early && later
}

#[test]
fn messages_without_an_id(rt: HostRuntime) -> Result<(), Fail> {
    assert!(rt;
        gives(
            &ClientMsg::Bad,
            Action::Invalid,
            Action::Invalid,
            Action::Invalid
        )
    );
    assert!(rt; gives(&ClientMsg::Ping, Action::Pong, Action::Pong, Action::Pong));
    assert!(rt;
        gives(
            &ClientMsg::Pong,
            Action::Ignore,
            Action::Ignore,
            Action::Ignore
        )
    );
    let init = ClientMsg::Init(None);
    assert!(rt;
        gives(
            &init,
            Action::Identify,
            Action::TooManyInits,
            Action::TooManyInits
        )
    );
    Ok(())
}

#[test]
fn messages_with_an_id(rt: HostRuntime) -> Result<(), Fail> {
    let alloc = rt.alloc();
    let asks = subscribe(alloc)?;
    assert!(rt; gives(&asks, Action::Unauthorized, Action::Admit, Action::Exists));
    let ends = complete(alloc)?;
    assert!(rt; gives(&ends, Action::Ignore, Action::Ignore, Action::End));
    Ok(())
}
