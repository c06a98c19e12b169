use crate::{Identity, Session, StrMap};
use scalar_val::Str;
use std::alloc::Global;

fn is_send_and_sync<T: Send + Sync + Drop>(_value: T) {}

fn session(alloc: Global) -> Session {
    Session {
        role: Str::from_string(String::new(alloc)),
        vars: StrMap::new(alloc),
    }
}

#[test]
fn sessions_may_go_to_another_thread(rt: HostRuntime) {
    let alloc = rt.alloc();
    is_send_and_sync(session(alloc));
    is_send_and_sync(Identity::Allowed(session(alloc)));
}
