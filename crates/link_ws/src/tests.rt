use crate::{Bell, WsConn, WsLink, WsPort};
use outside::{Accepted, Link, LinkIn, Listener, Opened, Opens, Sent, TcpPort};
use std::io::{Read, Write};
use std::net::{IpAddr, Ipv4Addr, Shutdown, TcpStream};
use std::test::Fail;
use std::time::{Duration, Instant};
use std::{str, thread};

/// The request of RFC 6455, section 1.3, with the subprotocol among others.
const REQUEST: &[u8] = b"GET /chat HTTP/1.1\r\nHost: server.example.com\r\nUpgrade: websocket\r\n\
    Connection: Upgrade\r\nSec-WebSocket-Key: dGhlIHNhbXBsZSBub25jZQ==\r\n\
    Sec-WebSocket-Protocol: graphql-ws, graphql-transport-ws\r\nSec-WebSocket-Version: 13\r\n\r\n";

/// The client's end, and the server's before its handshake, whose link will hear the bell.
fn connected(
    rt: HostRuntime,
    bell: &'static Bell,
) -> Result<(TcpStream, WsConn<HostRuntime>), Fail> {
    let address = IpAddr::V4(Ipv4Addr::LOCALHOST);
    let mut port = WsPort::new(rt, rt.alloc(), TcpPort::new(rt, address), bell);
    if !port.listen(0) {
        return Err(Fail::from("no port"));
    }
    let Some(number) = port.port().local_port() else {
        return Err(Fail::from("no number"));
    };
    let client = TcpStream::connect(&rt, (address, number))?;
    match port.accept() {
        Accepted::Conn(server) => Ok((client, server)),
        Accepted::End | Accepted::Failed => Err(Fail::from("no connection")),
    }
}

/// What comes, past the reads that give nothing yet.
fn next<K: Link>(link: &mut K) -> LinkIn {
    for _ in 0..100 {
        match link.recv() {
            LinkIn::Idle => {}
            came => return came,
        }
    }
    LinkIn::Idle
}

fn link_of(server: WsConn<HostRuntime>) -> Result<WsLink, Fail> {
    match server.open_link() {
        Opened::Link(link) => Ok(link),
        Opened::Refused | Opened::NoMemory => Err(Fail::from("no link")),
    }
}

/// The link may go to another thread.
fn is_send<T: Send + Drop>(_value: T) {}

fn new_bell(rt: HostRuntime) -> Result<&'static Bell, Fail> {
    Ok(Box::leak(Box::new(rt.alloc(), Bell::new(&rt)?)?))
}

/// A peer and the link to it, whose handshake is done, and which hears a bell that nobody rings.
fn linked(rt: HostRuntime) -> Result<(TcpStream, WsLink), Fail> {
    linked_by(rt, new_bell(rt)?)
}

/// A peer and the link to it, whose handshake is done, and which hears the bell.
fn linked_by(rt: HostRuntime, bell: &'static Bell) -> Result<(TcpStream, WsLink), Fail> {
    let (mut client, server) = connected(rt, bell)?;
    client.write_all(REQUEST)?;
    let link = link_of(server)?;
    let mut head = [0; 175];
    client.read_exact(&mut head)?;
    let head = str::from_utf8(&head)?;
    if head.starts_with("HTTP/1.1 101 Switching Protocols\r\n")
        && head.contains("sec-websocket-accept: s3pPLMBiTxaQ9kYGzzhZRbK+xOo=\r\n")
        && head.contains("sec-websocket-protocol: graphql-transport-ws\r\n")
        && head.ends_with("\r\n\r\n")
    {
        return Ok((client, link));
    }
    Err(Fail::from("another head"))
}

/// The frames of RFC 6455, section 5.7.
#[test]
fn a_text_comes_and_goes(rt: HostRuntime) -> Result<(), Fail> {
    let (mut client, mut link) = linked(rt)?;
    client.write_all(b"\x81\x85\x37\xfa\x21\x3d\x7f\x9f\x4d\x51\x58")?;
    match next(&mut link) {
        LinkIn::Text(text) => assert_eq!(rt; text.as_str(), "Hello"),
        _ => return Err(Fail::from("no text")),
    }
    assert_eq!(rt; link.send(b"Hello"), Sent::Done);
    let mut frame = [0; 7];
    client.read_exact(&mut frame)?;
    assert_eq!(rt; frame, *b"\x81\x05Hello");
    is_send(link);
    Ok(())
}

#[test]
fn a_ping_is_answered_and_a_close_too(rt: HostRuntime) -> Result<(), Fail> {
    let (mut client, mut link) = linked(rt)?;
    client.write_all(b"\x89\x85\x37\xfa\x21\x3d\x7f\x9f\x4d\x51\x58")?;
    client.write_all(b"\x88\x82\x37\xfa\x21\x3d\x34\x12")?;
    assert!(rt; matches!(next(&mut link), LinkIn::PeerClosed));
    let mut frames = [0; 11];
    client.read_exact(&mut frames)?;
    assert_eq!(rt; frames, *b"\x8a\x05Hello\x88\x02\x03\xe8");
    Ok(())
}

#[test]
fn a_close_goes_with_its_code_and_reason(rt: HostRuntime) -> Result<(), Fail> {
    let (mut client, mut link) = linked(rt)?;
    client.write_all(b"\x88\x82\x37\xfa\x21\x3d\x34\x12")?;
    assert_eq!(rt; link.close(4400, b"Invalid message"), Sent::Done);
    let mut frame = [0; 19];
    client.read_exact(&mut frame)?;
    assert_eq!(rt; frame, *b"\x88\x11\x11\x30Invalid message");
    Ok(())
}

#[test]
fn a_frame_that_the_standard_forbids_is_a_fault(rt: HostRuntime) -> Result<(), Fail> {
    let (mut client, mut link) = linked(rt)?;
    client.write_all(b"\x81\x05Hello")?;
    client.shutdown(Shutdown::Write)?;
    assert!(rt; matches!(next(&mut link), LinkIn::Failed));
    assert_eq!(rt; link.faults(), 1);
    let mut frame = [0; 4];
    client.read_exact(&mut frame)?;
    assert_eq!(rt; frame, *b"\x88\x02\x03\xea");
    Ok(())
}

#[test]
fn a_request_without_the_subprotocol_is_refused(rt: HostRuntime) -> Result<(), Fail> {
    let (mut client, server) = connected(rt, new_bell(rt)?)?;
    client.write_all(
        b"GET / HTTP/1.1\r\nHost: a\r\nUpgrade: websocket\r\nConnection: Upgrade\r\n\
        Sec-WebSocket-Key: dGhlIHNhbXBsZSBub25jZQ==\r\nSec-WebSocket-Version: 13\r\n\r\n",
    )?;
    assert!(rt; matches!(server.open_link(), Opened::Refused));
    let mut line = [0; 24];
    client.read_exact(&mut line)?;
    assert_eq!(rt; line, *b"HTTP/1.1 400 Bad Request");
    Ok(())
}

/// Receives `Idle` twice: the first wait ends as the link has begun to hear the bell, the second as nothing comes. The
/// next wait is a long one.
fn come_to_rest(link: &mut WsLink) -> Result<(), Fail> {
    for _ in 0..2 {
        if !matches!(link.recv(), LinkIn::Idle) {
            return Err(Fail::from("no rest"));
        }
    }
    Ok(())
}

/// How many milliseconds a `recv` waits that answers `Idle`.
fn idle_ms(rt: HostRuntime, link: &mut WsLink) -> Result<u128, Fail> {
    let start = Instant::now(&rt)?;
    match link.recv() {
        LinkIn::Idle => Ok(start.elapsed(&rt)?.as_millis()),
        _ => Err(Fail::from("not idle")),
    }
}

#[test]
fn a_link_at_rest_waits_longer(rt: HostRuntime) -> Result<(), Fail> {
    let (client, mut link) = linked(rt)?;
    come_to_rest(&mut link)?;
    let waited = idle_ms(rt, &mut link)?;
    assert!(rt; waited >= 450);
    drop(client);
    Ok(())
}

#[test]
fn a_ring_ends_a_wait_and_bytes_come_after_it(rt: HostRuntime) -> Result<(), Fail> {
    let bell = new_bell(rt)?;
    let (mut client, mut link) = linked_by(rt, bell)?;
    come_to_rest(&mut link)?;
    let ringer = thread::spawn(&rt, move || {
        thread::sleep(&rt, Duration::from_millis(60));
        bell.ring();
    })?;
    let waited = idle_ms(rt, &mut link)?;
    assert!(rt; waited >= 50 && waited < 450);
    ringer.join(&rt);
    client.write_all(b"\x81\x85\x37\xfa\x21\x3d\x7f\x9f\x4d\x51\x58")?;
    match next(&mut link) {
        LinkIn::Text(text) => assert_eq!(rt; text.as_str(), "Hello"),
        _ => return Err(Fail::from("no text")),
    }
    Ok(())
}

#[test]
fn a_ring_is_heard_at_the_next_wait_by_every_link(rt: HostRuntime) -> Result<(), Fail> {
    let bell = new_bell(rt)?;
    let (first_client, mut first) = linked_by(rt, bell)?;
    let (second_client, mut second) = linked_by(rt, bell)?;
    come_to_rest(&mut first)?;
    come_to_rest(&mut second)?;
    bell.ring();
    bell.ring();
    assert!(rt; idle_ms(rt, &mut first)? < 450);
    assert!(rt; idle_ms(rt, &mut second)? < 450);
    assert!(rt; idle_ms(rt, &mut first)? >= 45);
    assert!(rt; idle_ms(rt, &mut second)? >= 45);
    drop((first_client, second_client));
    Ok(())
}

#[test]
fn rings_do_not_cut_short_what_goes_by_after_a_close(rt: HostRuntime) -> Result<(), Fail> {
    let bell = new_bell(rt)?;
    let (client, mut link) = linked_by(rt, bell)?;
    let ringer = thread::spawn(&rt, move || {
        for _ in 0..100 {
            bell.ring();
            thread::sleep(&rt, Duration::from_millis(5));
        }
    })?;
    let start = Instant::now(&rt)?;
    assert_eq!(rt; link.close(4400, b"Invalid message"), Sent::Done);
    assert!(rt; start.elapsed(&rt)?.as_millis() >= 950);
    ringer.join(&rt);
    drop(client);
    Ok(())
}
