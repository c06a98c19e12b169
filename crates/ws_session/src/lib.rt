//! What a client's message asks of the server, by how far its connection has come (the `graphql-transport-ws` protocol).
#![tactic(auto)]

ghost use Rattle.std.specs.Prelude.{◌≡◌};
ghost use Rattle.wire_model.specs.Steps.{action, on_acked, on_fresh};
ghost use Rattle.ws_message.specs.Meant.{meant};

#[cfg(test)]
mod tests;

pub use wire_model::{Action, Phase};
use ws_message::ClientMsg;

fn on_fresh(msg: &ClientMsg) -> Action
    ensures { result ≡ on_fresh (meant msg.now) }
{
    match msg {
        ClientMsg::Bad => Action::Invalid,
        ClientMsg::Init(_) => Action::Identify,
        ClientMsg::Subscribe { .. } => Action::Unauthorized,
        ClientMsg::Ping => Action::Pong,
        ClientMsg::Complete { .. } | ClientMsg::Pong => Action::Ignore,
    }
}

fn on_acked(msg: &ClientMsg, id_live: bool) -> Action
    ensures { result ≡ on_acked (meant msg.now) id_live }
{
    match msg {
        ClientMsg::Bad => Action::Invalid,
        ClientMsg::Init(_) => Action::TooManyInits,
        ClientMsg::Subscribe { .. } => {
            if id_live {
                Action::Exists
            } else {
                Action::Admit
            }
        }
        ClientMsg::Complete { .. } => { if id_live { Action::End } else { Action::Ignore } }
        ClientMsg::Ping => Action::Pong,
        ClientMsg::Pong => Action::Ignore,
    }
}

/// What a message asks for. A binary message is `ClientMsg::Bad`. `id_live`: the message's id is that of a live
/// subscription of the connection; it counts only where the message has an id. A closed connection ignores all messages.
/// It takes no memory.
pub fn step(phase: &Phase, msg: &ClientMsg, id_live: bool) -> Action
    ensures { result ≡ action phase.now (meant msg.now) id_live }
{
    match phase {
        Phase::Fresh => on_fresh(msg),
        Phase::Acked => on_acked(msg, id_live),
        Phase::Closed => Action::Ignore,
    }
}
