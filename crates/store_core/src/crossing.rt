//! What may go from one thread to another. A type that holds a pointer without an owner, say, would
//! make this crate fail, and not only those above that start threads.

use crate::store::Store;

fn crosses_threads<T: Send>(_: &T) {}

/// A store may go to another thread.
fn stores_cross_threads(store: &Store) {
    crosses_threads(store)
}
