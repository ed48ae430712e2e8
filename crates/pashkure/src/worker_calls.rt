//! The calls that a worker makes by itself, with no mutex. Of a closed handle each answers `NOT_OPEN`, and changes nothing.
ghost use Rattle.std.specs.Prelude.{◌≡◌};
ghost use Rattle.pashkure.specs.WorkerCalls.{HasWorker, TellsGiveBack, TellsGiveBackAll, TellsTake};

use crate::answer::NOT_OPEN;
use crate::desk_answer::{of_given, of_left, of_take};
use crate::worker_handle::WorkerHandle;
use std::alloc::Global;

/// Gives back or lets go all that the worker has taken, and gives back the memory of the worker.
#[unsafe(no_mangle)]
pub extern "C" fn pashkure_worker_close(alloc: Global, worker: &mut WorkerHandle)
    ensures closed { ¬ HasWorker worker.new }
    ensures same { ¬ HasWorker worker.old → worker.new ≡ worker.old }
{
    if !worker.is_open() {
        return;
    }
    let _ = worker.worker().leave_all();
    let held = std::mem::replace(worker, WorkerHandle::closed());
    drop(held.into_parts(alloc).into_box());
}

/// `Worker::take`.
#[unsafe(no_mangle)]
pub extern "C" fn pashkure_worker_take(worker: &mut WorkerHandle, name: &[u8]) -> u32
    ensures closed { ¬ HasWorker worker.old → (result ≡ 32) × (worker.new ≡ worker.old) }
    ensures open { worker.new.state ≡ worker.old.state }
    ensures takes { HasWorker worker.old → TellsTake worker.old.held name.now result worker.new.held }
{
    if !worker.is_open() {
        return NOT_OPEN;
    }
    of_take(worker.worker().take(name))
}

/// Gives a name back that the worker has taken, unless its bucket is fat.
#[unsafe(no_mangle)]
pub extern "C" fn pashkure_worker_give_back(worker: &mut WorkerHandle, name: &[u8]) -> u32
    ensures closed { ¬ HasWorker worker.old → (result ≡ 32) × (worker.new ≡ worker.old) }
    ensures open { worker.new.state ≡ worker.old.state }
    ensures gives { HasWorker worker.old → TellsGiveBack worker.old.held name.now result worker.new.held }
{
    if !worker.is_open() {
        return NOT_OPEN;
    }
    of_given(worker.worker().give_back_name(name))
}

/// Gives all back that the worker has taken, but for what is fat.
#[unsafe(no_mangle)]
pub extern "C" fn pashkure_worker_give_back_all(worker: &mut WorkerHandle) -> u32
    ensures closed { ¬ HasWorker worker.old → (result ≡ 32) × (worker.new ≡ worker.old) }
    ensures open { worker.new.state ≡ worker.old.state }
    ensures gives { HasWorker worker.old → TellsGiveBackAll worker.old.held result worker.new.held }
{
    if !worker.is_open() {
        return NOT_OPEN;
    }
    of_left(worker.worker().give_back_all())
}
