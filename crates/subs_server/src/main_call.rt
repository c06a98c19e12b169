//! The call that starts the server's works.
ghost use Rattle.std.specs.Prelude.{◌≡◌, ◌⊎◌, IsSome, map, string_bytes};
ghost use Rattle.outside.specs.Ends.{Rose};
ghost use Rattle.subs_server.specs.Mains.{AreValid, HasFault, IfPort, IsStatus, LeftFailed, StartsWorks, listener_view};

use crate::read::{ReadEnd, read_text};
use crate::start::{StartEnd, start_all};
use crate::task::ServeWork;
use outside::{Clock, Listener, Opens, Source, Spawner, Splits};
use role_schema::{Meta, MetaReadFault};
use serve_words::{WordsFault, read_words};
use std::alloc::Global;
use std::sync::Wait;
use subs_engine::Gate;

/// Serves: it reads its words and the metadata, listens on both ports, starts the works that poll and the one that takes
/// commits, and then one for each connection that comes. It waits, and promises no return. `commits` has to hold a
/// listener; it is taken out once it listens.
///
/// 0: the sockets' listener ended, or 4,294,967,295 connections were numbered. 1: the metadata's source failed. 2: the
/// metadata has a fault. 4: memory was refused. 5: the words are refused. 6: a listener failed. 7: the spawner failed.
#[tactic(auto, using(crate::proofs::Serving::main_none, crate::proofs::Serving::has_fault))]
pub fn serve_main<R, M, L, Q, P, C, G>(
    rt: &R,
    alloc: Global,
    words: &[String],
    meta: &mut M,
    sockets: &mut L,
    commits: &mut Option<Q>,
    spawner: &mut P,
    clock: C,
    gate: G,
) -> u8
where
    R: Wait,
    M: Source,
    L: Listener,
    L::Conn: Opens + Drop,
    <L::Conn as Opens>::Link: Drop,
    Q: Listener + Send + Drop + 'static,
    Q::Conn: Splits + Drop,
    <Q::Conn as Splits>::Source: Drop,
    <Q::Conn as Splits>::Sink: Drop,
    P: Spawner<ServeWork<L::Conn, Q, C, G>>,
    C: Clock + Copy + Send + Drop + 'static,
    G: Gate + Copy + Send + Drop + 'static,
    requires { IsSome commits.old }
    ensures status { IsStatus result }
    ensures words { result ≡ 5 → AreValid (map string_bytes words.now) → ⊥ }
    ensures source { result ≡ 1 → Rose (M.faults meta.old) (M.faults meta.new) }
    ensures metadata { result ≡ 2 → HasFault (M.left meta.old) (M.left meta.new) }
    ensures listeners { result ≡ 6 → Rose (L.faults sockets.old) (L.faults sockets.new)
        ⊎ LeftFailed Q.faults commits.old commits.new }
    ensures spawner { result ≡ 7 → Rose (P.faults spawner.old) (P.faults spawner.new) }
    ensures works { IfPort commits.old (λ port. StartsWorks
        (λ from. listener_view (Q.coming from) (Q.last_port from) (Q.faults from))
        (map string_bytes words.now) (M.left meta.old) (M.left meta.new)
        (listener_view (L.coming sockets.old) (L.last_port sockets.old) (L.faults sockets.old))
        (listener_view (L.coming sockets.new) (L.last_port sockets.new) (L.faults sockets.new))
        port clock gate (P.started spawner.old) (P.started spawner.new) result) }
{
    let asked = match read_words(alloc, words) {
        Ok(asked) => asked,
        Err(WordsFault::Usage) => return 5,
        Err(WordsFault::NoMemory) => return 4,
    };
    let text = match read_text(rt, alloc, meta) {
        Ok(text) => text,
        Err(ReadEnd::Fault) => return 1,
        Err(ReadEnd::NoMemory) => return 4,
    };
    let said = match Meta::read(alloc, text.as_slice()) {
        Ok(said) => said,
        Err(MetaReadFault::Refused(_)) => return 2,
        Err(MetaReadFault::NoMemory) => return 4,
    };
    match start_all(alloc, asked, said, sockets, commits, spawner, clock, gate) {
        Ok(()) => 0,
        Err(StartEnd::NoMemory) => 4,
        Err(StartEnd::ListenFault) => 6,
        Err(StartEnd::SpawnFault) => 7,
    }
}
