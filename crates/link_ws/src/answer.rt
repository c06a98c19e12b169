ghost use Rattle.link_ws.specs.Answers.{Gives};

use outside::LinkIn;
use scalar_val::Str;
use std::alloc::Global;
use std::io::ErrorKind;
use tungstenite::{CloseCode, Error, Message};
use websocket::error::ProtocolError;

/// What the link answers where a read of its WebSocket gave this.
pub fn answer_of(alloc: Global, read: Result<Message, Error>) -> LinkIn
    ensures { Gives read result }
{
    match read {
        Ok(Message::Text(text)) => match Str::of(alloc, text.as_str()) {
            Ok(text) => LinkIn::Text(text),
            Err(_) => LinkIn::NoMemory,
        },
        Ok(Message::Binary(_)) => LinkIn::Binary,
        Ok(Message::Ping(_)) | Ok(Message::Pong(_)) => LinkIn::Idle,
        Ok(Message::Close(_)) | Err(Error::ConnectionClosed) => LinkIn::PeerClosed,
        Err(Error::OutOfMemory) => LinkIn::NoMemory,
        Err(Error::Io(error)) => {
            if error.kind() == ErrorKind::WouldBlock {
                LinkIn::Idle
            } else {
                LinkIn::Failed
            }
        }
        Err(_) => LinkIn::Failed,
    }
}

/// The code of the close that tells a peer what it did against the protocol (RFC 6455, section 7.4.1), where it did and
/// is still there.
pub fn breach_of(read: &Result<Message, Error>) -> Option<CloseCode> {
    match read {
        Err(Error::Capacity(_)) => Some(CloseCode::Size),
        Err(Error::Utf8) => Some(CloseCode::Invalid),
        Err(Error::Protocol(ProtocolError::ResetWithoutClosingHandshake)) => None,
        Err(Error::Protocol(_)) => Some(CloseCode::Protocol),
        _ => None,
    }
}
