//! The calls that open and close a desk, and that add workers.
ghost use Rattle.std.specs.Prelude.{◌≡◌, ◌≢◌, ◌⊎◌, IfSome};
ghost use Rattle.pashkure.specs.DeskCalls.{HasDesk, IsNew, TellsAddWorker, desk_fault};
ghost use Rattle.pashkure.specs.Plain.{config_of};
ghost use Rattle.pashkure.specs.WorkerCalls.{HasWorker};

use crate::answer::{BAD_BUCKETS, IN_USE, NO_MEMORY, NOT_OPEN, OK};
use crate::desk_answer::of_worker_error;
use crate::desk_handle::DeskHandle;
use crate::hall::Hall;
use crate::opening::{fault, is_out};
use crate::parts::Parts;
use crate::plain::PlainConfig;
use crate::worker_handle::WorkerHandle;
use mm_desk::DeskConfig;
use mm_thin::ThinConfig;
use std::alloc::Global;

/// Opens a desk of this many buckets: 0, or why there is none.
#[unsafe(no_mangle)]
pub extern "C" fn pashkure_desk_open(
    alloc: Global,
    desk: &mut DeskHandle,
    config: &PlainConfig,
    buckets: u32,
) -> u32
    ensures in_use { HasDesk desk.old → result ≡ 33 }
    ensures fault { ¬ HasDesk desk.old → desk_fault config.now buckets ≢ 0 → result ≡ desk_fault config.now buckets }
    ensures no_fault { ¬ HasDesk desk.old → desk_fault config.now buckets ≡ 0 → (result ≡ 0) ⊎ (result ≡ 39) }
    ensures refused { result ≢ 0 → desk.new ≡ desk.old }
    ensures open { result ≡ 0 → HasDesk desk.new × IsNew (record { manager = config_of config.now; buckets = buckets }) desk.new.held }
{
    if desk.is_open() {
        return IN_USE;
    }
    let fault = desk_fault(config, buckets);
    if fault != OK {
        return fault;
    }
    let config = DeskConfig {
        manager: config.manager_config(),
        buckets,
    };
    match open(alloc, config) {
        Some(opened) => {
            *desk = opened;
            OK
        }
        None => NO_MEMORY,
    }
}

/// Returns the number of the first fault of a configuration, or of the number of buckets; 0 if there is none.
fn desk_fault(config: &PlainConfig, buckets: u32) -> u32
    ensures { result ≡ desk_fault config.now buckets }
{
    let fault = fault(config);
    if fault == OK && is_out(buckets, ThinConfig::MAX_BUCKETS) {
        return BAD_BUCKETS;
    }
    fault
}

/// Returns a handle of a new desk; `None` if a number is out of its range, or a request for memory was refused.
fn open(alloc: Global, config: DeskConfig) -> Option<DeskHandle>
    ensures { IfSome result (λ desk. HasDesk desk × IsNew config desk.held) }
{
    let hall = Hall::open(alloc, config)?;
    let boxed = Box::new(alloc, hall).ok()?;
    Some(DeskHandle::of_parts(Parts::of(boxed)))
}

/// Gives back all memory of the desk.
#[unsafe(no_mangle)]
pub extern "C" fn pashkure_desk_close(alloc: Global, desk: &mut DeskHandle)
    ensures closed { ¬ HasDesk desk.new }
    ensures same { ¬ HasDesk desk.old → desk.new ≡ desk.old }
{
    if !desk.is_open() {
        return;
    }
    let held = std::mem::replace(desk, DeskHandle::closed());
    drop(held.into_parts(alloc).into_box());
}

/// `Desk::add_worker`.
#[unsafe(no_mangle)]
pub extern "C" fn pashkure_desk_add_worker(
    alloc: Global,
    desk: &mut DeskHandle,
    worker: &mut WorkerHandle,
) -> u32
    ensures closed { ¬ HasDesk desk.old → (result ≡ 32) × (desk.new ≡ desk.old) × (worker.new ≡ worker.old) }
    ensures in_use { HasDesk desk.old → HasWorker worker.old → (result ≡ 33) × (desk.new ≡ desk.old) × (worker.new ≡ worker.old) }
    ensures open { desk.new.state ≡ desk.old.state }
    ensures adds { HasDesk desk.old → ¬ HasWorker worker.old → TellsAddWorker desk.old.held worker.old result desk.new.held worker.new }
{
    if !desk.is_open() {
        return NOT_OPEN;
    }
    if worker.is_open() {
        return IN_USE;
    }
    match desk.hall().desk.add_worker(alloc) {
        Ok(added) => match Box::new(alloc, added) {
            Ok(boxed) => {
                *worker = WorkerHandle::of_parts(Parts::of(boxed));
                OK
            }
            Err(_) => NO_MEMORY,
        },
        Err(error) => of_worker_error(error),
    }
}
