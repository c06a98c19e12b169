//! What a publication tells each member.
ghost use Rattle.std.specs.Prelude.{◌≡◌, ◌<◌, ℕ, true, None, Some, [], ◌∷◌, List, length, slice_get, replicate, IfOk};
ghost use Rattle.query_model.specs.declared.kind.SubKind.TheVariants.{Live, Once, Stream};
ghost use Rattle.wire_model.specs.ServerMessages.{next_text};
ghost use Rattle.machine.specs.Publication.{is_new};
ghost use Rattle.hub_model.specs.Tellings.{telling, telling_by};
ghost use Rattle.hub.specs.Telling.{IsKeptOf, KeepsTexts};

use hub_model::{Change, Telling, TellingList};
use json_out::Outcome;
use outbox::OutText;
use query_model::SubKind;
use resp_keep::{Kept, SharedKept, same_text};
use scalar_val::{Bytes, List, NoMemory, copy_val};
use std::alloc::Global;
use subscription_table::Held;
use wire_model::ServerMsg;
use ws_message::write_server;

/// The texts of results that are kept, each where it was first wanted: one place for each outcome.
pub(crate) type KeptList = Vec<Option<SharedKept>>;

/// No text is kept so far.
pub(crate) fn none_kept(alloc: Global, count: usize) -> Result<KeptList, NoMemory>
    ensures { IfOk result (λ kept. kept.items ≡ replicate count None) }
{
    let mut kept = Vec::with_capacity(alloc, count)?;
    while kept.len() < count {
        kept.push(None)?;
    }
    Ok(kept)
}

/// One more owner of the kept text of an outcome, which is copied where it is wanted first.
fn kept_text(
    alloc: Global,
    kept: &mut KeptList,
    place: usize,
    text: &Bytes,
) -> Result<SharedKept, NoMemory>
    requires place { place < length kept.old.items }
    requires text { IsKeptOf text.now (slice_get kept.old.items place) }
    ensures ok { IfOk result (λ shared. shared ≡ text.now) }
    ensures kept { KeepsTexts place text.now kept.old.items kept.new.items }
{
    if let Some(shared) = &kept[place] {
        return shared.share();
    }
    let copy = Bytes::of(Vec::from_slice(alloc, text.as_slice())?);
    let shared = SharedKept::of(alloc, Kept::new(copy))?;
    let other = shared.share()?;
    kept[place] = Some(shared);
    Ok(other)
}

/// There is no last text, or it differs.
fn is_new(last: &Option<SharedKept>, text: &Bytes) -> bool
    ensures { result ≡ is_new last.now text.now }
{
    match last {
        Some(last) => !same_text(last.kept(), text),
        None => true,
    }
}

/// The `next` of a result.
fn next_texts(alloc: Global, held: &Held, outcome: &Outcome) -> Result<List<OutText>, NoMemory>
    ensures { IfOk result (λ texts. texts ≡ next_text held.now.id outcome.now.text ∷ []) }
{
    let mut texts = List::new(alloc);
    let msg = ServerMsg::Next {
        id: held.id.as_str(),
        payload: outcome.text.as_slice(),
    };
    texts.add(write_server(alloc, &msg)?)?;
    Ok(texts)
}

fn telling(held: &Held, texts: List<OutText>, change: Change) -> Telling
    ensures { result ≡ telling held.now texts change }
{
    Telling {
        sub: held.number,
        conn: held.connection,
        texts,
        change,
    }
}

/// A live query is told its first result, and then each that differs from the one before.
fn live_telling(
    alloc: Global,
    kept: &mut KeptList,
    place: usize,
    held: &Held,
    outcome: &Outcome,
) -> Result<Option<Telling>, NoMemory>
    requires place { place < length kept.old.items }
    requires text { IsKeptOf outcome.now.text (slice_get kept.old.items place) }
    ensures ok { IfOk result (λ told. told ≡ telling_by Live held.now outcome.now) }
    ensures kept { KeepsTexts place outcome.now.text kept.old.items kept.new.items }
{
    if !is_new(&held.last, &outcome.text) {
        return Ok(None);
    }
    let texts = next_texts(alloc, held, outcome)?;
    let text = kept_text(alloc, kept, place, &outcome.text)?;
    Ok(Some(telling(held, texts, Change::Remembers(text))))
}

/// A query that is answered once is told its result and that it is complete, and ends.
fn once_telling(alloc: Global, held: &Held, outcome: &Outcome) -> Result<Option<Telling>, NoMemory>
    ensures { IfOk result (λ told. told ≡ telling_by Once held.now outcome.now) }
{
    let mut texts = next_texts(alloc, held, outcome)?;
    let msg = ServerMsg::Complete {
        id: held.id.as_str(),
    };
    texts.add(write_server(alloc, &msg)?)?;
    Ok(Some(telling(held, texts, Change::Ends)))
}

/// A stream is told its next rows, where there are any, and its cursor moves to the last of them.
fn stream_telling(
    alloc: Global,
    held: &Held,
    outcome: &Outcome,
) -> Result<Option<Telling>, NoMemory>
    ensures { IfOk result (λ told. told ≡ telling_by Stream held.now outcome.now) }
{
    if outcome.rows == 0 {
        return Ok(None);
    }
    let texts = next_texts(alloc, held, outcome)?;
    let cursor = copy_val(alloc, &outcome.last)?;
    Ok(Some(telling(held, texts, Change::Moves(cursor))))
}

/// What a live member is told of the outcome of its cohort, if anything.
pub(crate) fn telling_by(
    alloc: Global,
    kept: &mut KeptList,
    place: usize,
    held: &Held,
    outcome: &Outcome,
) -> Result<Option<Telling>, NoMemory>
    requires place { place < length kept.old.items }
    requires text { IsKeptOf outcome.now.text (slice_get kept.old.items place) }
    ensures ok { IfOk result (λ told. told ≡ telling_by held.now.kind held.now outcome.now) }
    ensures kept { KeepsTexts place outcome.now.text kept.old.items kept.new.items }
{
    match held.kind {
        SubKind::Live => live_telling(alloc, kept, place, held, outcome),
        SubKind::Once => once_telling(alloc, held, outcome),
        SubKind::Stream => stream_telling(alloc, held, outcome),
    }
}
