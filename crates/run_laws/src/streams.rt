ghost use Rattle.run_laws.specs.Streams.{StreamsAreToldNextRows, StreamsAreSentOnce};

use role_model::Metadata;

/// What holds of the streams of every run, from the event on that made one a subscription.
///
/// - `told`: at each of its turns a stream is told the rows beyond its cursor in the snapshot of the turn's version, in
///   one text, and none where there are none. Its cursor moves to the last of them, and by nothing else.
/// - `once`: where its column is unique and its table only grows from the subscribe on, beyond all values that are
///   present, these rows are all that match beyond the cursor with which it began and not beyond the one that it has
///   come to, each once and in order.
pub fn stream_laws()
    ensures told { (meta : Metadata) → StreamsAreToldNextRows meta }
    ensures once { (meta : Metadata) → StreamsAreSentOnce meta }
{}
