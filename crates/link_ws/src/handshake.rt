ghost use Rattle.std.specs.Prelude.{◌≡◌, IfOk};

use crate::bell::Bell;
use crate::link::WsLink;
use crate::paced::{Paced, READ_MS};
use http::{HeaderName, HeaderValue, Request, Response, StatusCode};
use outside::Link;
use std::alloc::Global;
use std::io;
use std::io::ErrorKind;
use std::net::{Net, TcpStream};
use std::time::Duration;
use thiserror::Error;
use tungstenite::handshake::server::{ErrorResponse, start};
use tungstenite::{Callback, Error as SocketError, HandshakeError, WebSocketConfig};

/// The subprotocol, as the protocol `graphql-transport-ws` names it.
const SUBPROTOCOL: &str = "graphql-transport-ws";

/// The largest message that comes, in bytes: twice what the runtime takes, so that it refuses a longer one itself, by
/// its own close.
const MAX_MESSAGE: usize = 2_097_152;

/// How many bytes one read asks for. Each connection holds two buffers of this size.
const READ_BUFFER: usize = 8192;

/// After so many milliseconds without room at the peer a write fails.
const WRITE_MS: u64 = 10_000;

/// So many reads a handshake may take: at most 10 seconds, in however many pieces it comes.
const HANDSHAKE_READS: u32 = 200;

/// Why a connection didn't open as a link.
#[derive(Clone, Copy, Debug, PartialEq, Eq, Error)]
pub enum WsFault {
    /// The peer sent no whole WebSocket handshake in time, or didn't offer the subprotocol.
    #[error("no handshake")]
    Handshake,

    #[error("no memory")]
    NoMemory,
}

/// Takes a request that offers the subprotocol, and chooses it. Any other is answered with 400, and with 503 where
/// memory is refused.
#[derive(Clone, Copy, Drop)]
struct Choose(Global);

impl Callback for Choose {
    fn on_request(
        self,
        request: &Request<()>,
        mut response: Response<()>,
    ) -> Result<Response<()>, ErrorResponse> {
        if !offers_subprotocol(request) {
            return Err(refusal(self.0, StatusCode::BAD_REQUEST));
        }
        let name = HeaderName::from_static("sec-websocket-protocol");
        let value = HeaderValue::from_static(SUBPROTOCOL);
        match response.headers_mut().insert(name, value) {
            Ok(_) => Ok(response),
            Err(_) => Err(refusal(self.0, StatusCode::SERVICE_UNAVAILABLE)),
        }
    }
}

fn refusal(alloc: Global, status: StatusCode) -> ErrorResponse {
    let mut refusal = Response::new(alloc, None);
    *refusal.status_mut() = status;
    refusal
}

/// Whether a field of the request offers the subprotocol, alone or among others between commas.
fn offers_subprotocol(request: &Request<()>) -> bool {
    for value in request.headers().get_all("sec-websocket-protocol") {
        if let Ok(offers) = value.to_str()
            && has_subprotocol(offers)
        {
            return true;
        }
    }
    false
}

fn has_subprotocol(offers: &str) -> bool {
    for offer in offers.split(',') {
        if offer.trim() == SUBPROTOCOL {
            return true;
        }
    }
    false
}

/// Does the server's part of the WebSocket handshake (RFC 6455, section 4.2) over a stream, and makes the link. Any
/// path is taken. A handshake that isn't whole after 200 reads, each of which waits 50 ms at most, has failed. The link
/// then hears the bell.
pub fn accept_ws<R: Net>(
    rt: &R,
    alloc: Global,
    stream: TcpStream,
    bell: &'static Bell,
) -> Result<WsLink, WsFault>
    ensures { IfOk result (λ link. ⟦<WsLink as Link>⟧.faults link ≡ 0) }
{
    let stream = match pace(rt, alloc, stream) {
        Ok(stream) => stream,
        Err(error) if error.kind() == ErrorKind::OutOfMemory => return Err(WsFault::NoMemory),
        Err(_) => return Err(WsFault::Handshake),
    };
    let config = WebSocketConfig::default()
        .max_message_size(Some(MAX_MESSAGE))
        .max_frame_size(Some(MAX_MESSAGE))
        .read_buffer_size(READ_BUFFER);
    let mut handshake = start(alloc, stream, Choose(alloc), Some(config));
    for _ in 0..=HANDSHAKE_READS {
        match handshake.handshake() {
            Ok(mut socket) => {
                return match socket.get_mut().hear(bell) {
                    Ok(()) => Ok(WsLink::new(alloc, socket)),
                    Err(_) => Err(WsFault::Handshake),
                };
            }
            Err(HandshakeError::Interrupted(rest)) => handshake = rest,
            Err(HandshakeError::Failure(error)) => return Err(fault_of(&error)),
        }
    }
    Err(WsFault::Handshake)
}

/// Small messages go out at once, and neither reads nor writes wait for ever.
fn pace<R: Net>(rt: &R, alloc: Global, stream: TcpStream) -> io::Result<Paced> {
    stream.set_nodelay(true)?;
    stream.set_read_timeout(Some(Duration::from_millis(READ_MS)))?;
    stream.set_write_timeout(Some(Duration::from_millis(WRITE_MS)))?;
    Paced::new(rt, alloc, stream, HANDSHAKE_READS)
}

fn fault_of(error: &SocketError) -> WsFault {
    match error {
        SocketError::OutOfMemory => WsFault::NoMemory,
        SocketError::Refused(response) if response.status() == StatusCode::SERVICE_UNAVAILABLE => {
            WsFault::NoMemory
        }
        _ => WsFault::Handshake,
    }
}
