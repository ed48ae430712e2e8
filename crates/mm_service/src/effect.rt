//! What a request comes to beside its reply.

use mm_manager::Key;

/// What a request came to beside its reply.
#[derive(Clone, Copy)]
pub enum Effect {
    /// Nothing.
    Nothing,
    /// A request of this transaction was refused, since its wait would have closed a cycle of waits. The holder owns the name that it asked
    /// for, which stands at this place, from 0, if it asked for several.
    Deadlock { key: Key, holder: Key, place: u64 },
    /// Waits of others may have ended.
    EndedWaits,
    /// This transaction ended, and waits of others may have ended.
    Ended(Key),
}
