//! A gate for threads.
ghost use Rattle.std.specs.Prelude.{◌≡◌, IfOk, IfErr, vec_len};
ghost use Rattle.mm_workload.specs.declared.fault.WorkFault.TheVariants.{Memory};

use mm_clients::Gate;
use mm_workload::WorkFault;
use std::alloc::Global;
use std::sync::{Arc, Mutex, Wait};

/// What all gates of a run have counted. Each number stops at 4,294,967,295.
#[derive(Clone, Copy, Debug, PartialEq, Eq)]
pub struct Counts {
    /// Arrivals, of all clients.
    pub arrived: u32,
    /// Clients that have ended.
    pub left: u32,
}

/// A worker's gate, which counts together with the other gates that were made with it: both counts stand behind one lock.
///
/// Each call takes the lock. Constant time from then on.
#[derive(Drop)]
pub struct SharedGate<'a, R: Wait> {
    rt: &'a R,
    clients: u32,
    counts: Arc<Mutex<Counts>>,
}

impl<'a, R: Wait> SharedGate<'a, R> {
    /// Returns what all gates have counted so far.
    pub fn counts(&self) -> Counts {
        *self.counts.lock(self.rt)
    }
}

impl<'a, R: Wait> Gate for SharedGate<'a, R> {
    fn arrive(&mut self) {
        let mut counts = self.counts.lock(self.rt);
        counts.arrived = counts.arrived.saturating_add(1);
    }

    fn may_pass(&mut self, arrivals: u32) -> bool {
        self.counts().arrived >= arrivals
    }

    fn leave(&mut self) {
        let mut counts = self.counts.lock(self.rt);
        counts.left = counts.left.saturating_add(1);
    }

    fn over(&mut self) -> bool {
        self.counts().left >= self.clients
    }
}

/// Returns one gate for each worker, all of which count together. They are over once this many clients have left. Takes memory; `O(workers)`.
///
/// Refused as `Memory` only if a request for memory was refused.
pub fn shared_gates<R: Wait>(
    rt: &R,
    alloc: Global,
    clients: u32,
    workers: u32,
) -> Result<Vec<SharedGate<'_, R>>, WorkFault>
    ensures each { IfOk result (λ gates. vec_len gates ≡ workers) }
    ensures memory { IfErr result (λ fault. fault ≡ Memory) }
{
    let counts = Arc::new(
        alloc,
        Mutex::new(Counts {
            arrived: 0,
            left: 0,
        }),
    )?;
    let mut gates = Vec::with_capacity(alloc, workers as usize)?;
    for _worker in 0..workers {
        gates.push_reserved(SharedGate {
            rt,
            clients,
            counts: Arc::try_clone(&counts)?,
        });
    }
    Ok(gates)
}
