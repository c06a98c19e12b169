use crate::{Catalog, Tx};
use scalar_val::List;

fn is_send_and_sync<T: Send + Sync + Drop>(_value: T) {}

#[test]
fn catalogs_and_transactions_may_be_shared_with_other_threads(rt: HostRuntime) {
    let alloc = rt.alloc();
    is_send_and_sync(Tx::new(alloc));
    is_send_and_sync(Catalog {
        tables: List::new(alloc),
    });
}
