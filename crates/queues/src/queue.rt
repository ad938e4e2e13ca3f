//! A job's queue: first in, first out.
ghost use Rattle.std.specs.Prelude.{◌≡◌, ◌<◌};
ghost use Rattle.queues.specs.Queue.{queue_limit, empty_queue, with_store, first_store, without_first};

use operations::store::Store;

/// The most stores that wait in a queue.
pub const QUEUE_LIMIT: u8 = 8;

/// The stores stand in order from place 0; what stands behind the length waits no more.
#[derive(Clone, Copy)]
pub struct Queue {
    pub stores: [Store; QUEUE_LIMIT as usize],
    pub length: u8,
}

impl Queue {
    /// A queue in which nothing waits.
    pub fn empty() -> Queue
        ensures { result ≡ empty_queue }
    {
        Queue {
            stores: [Store::default(); QUEUE_LIMIT as usize],
            length: 0,
        }
    }

    /// A queue with a store more, behind the others.
    pub fn with_store(mut self, store: Store) -> Queue
        requires { self.length < queue_limit }
        ensures { result ≡ with_store self store }
    {
        self.stores[self.length as usize] = store;
        self.length += 1;
        self
    }

    /// The store that came first.
    pub fn first_store(self) -> Store
        ensures { result ≡ first_store self }
    {
        self.stores[0]
    }

    /// A queue without it: the others move up.
    pub fn without_first(mut self) -> Queue
        requires { 0 < self.length }
        ensures { result ≡ without_first self }
    {
        self.stores.copy_within(1.., 0);
        self.length -= 1;
        self
    }
}
