ghost use Rattle.query_model.specs.StreamLaws.{StreamsSendNextRows, StreamsSendOnce};

/// The result of a stream sends its next rows: its text is the payload of their objects, its number of rows is theirs, and
/// its last value is the cursor column's in the last of them, or null where there are none. The next rows are those that
/// match beyond the cursor, as many as the batch and the permission's limit allow.
///
/// And a stream sends each row once and in order: what it sends at versions that never fall, from its initial cursor on,
/// is the matching rows of the last version that lie beyond the initial value and not beyond the cursor that it has come
/// to, in the order of its column. This holds where the column is unique, or the whole key, and where, from the version at
/// which the stream begins, each change of its table inserts a value beyond all that are present. Batches of any size and
/// versions that are left out change nothing of it.
pub fn streams()
    ensures next { StreamsSendNextRows }
    ensures once { StreamsSendOnce }
{}
