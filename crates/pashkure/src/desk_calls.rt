//! The calls that change a desk. Of a closed handle each answers `NOT_OPEN`, and changes nothing.
ghost use Rattle.std.specs.Prelude.{◌≡◌, ◌⊎◌};
ghost use Rattle.pashkure.specs.DeskCalls.{FreesAll, HasDesk, TellsAbortAt, TellsAdoptAll, TellsAskAt, TellsBeginAt, TellsCancelAt, TellsCommitAt, TellsTryAt, TellsUnlockAt};
ghost use Rattle.mm_thin.specs.Calls.{GivesSomeUp};
ghost use Rattle.pashkure.specs.WorkerCalls.{HasWorker};

use crate::answer::{NOT_OPEN, of_begin, of_done};
use crate::desk_answer::{of_adopted, of_asked, of_ended, of_tried, of_unlocked};
use crate::desk_handle::DeskHandle;
use crate::plain::PlainKey;
use crate::worker_handle::WorkerHandle;

/// `Desk::ask`.
#[unsafe(no_mangle)]
pub extern "C" fn pashkure_desk_ask(
    desk: &mut DeskHandle,
    worker: &mut WorkerHandle,
    name: &[u8],
) -> u32
    ensures closed { ¬ HasDesk desk.old ⊎ ¬ HasWorker worker.old → (result ≡ 32) × (desk.new ≡ desk.old) × (worker.new ≡ worker.old) }
    ensures open { (desk.new.state ≡ desk.old.state) × (worker.new.state ≡ worker.old.state) }
    ensures worker { worker.new ≡ worker.old }
    ensures asks { HasDesk desk.old → HasWorker worker.old → TellsAskAt desk.old.held worker.old.held.at name.now result desk.new.held }
{
    if !desk.is_open() || !worker.is_open() {
        return NOT_OPEN;
    }
    let at = worker.worker().at();
    of_asked(desk.hall().desk.ask(at, name))
}

/// `Desk::try_lock`.
#[unsafe(no_mangle)]
pub extern "C" fn pashkure_desk_try_lock(
    desk: &mut DeskHandle,
    worker: &mut WorkerHandle,
    name: &[u8],
) -> u32
    ensures closed { ¬ HasDesk desk.old ⊎ ¬ HasWorker worker.old → (result ≡ 32) × (desk.new ≡ desk.old) × (worker.new ≡ worker.old) }
    ensures open { (desk.new.state ≡ desk.old.state) × (worker.new.state ≡ worker.old.state) }
    ensures worker { worker.new ≡ worker.old }
    ensures tries { HasDesk desk.old → HasWorker worker.old → TellsTryAt desk.old.held worker.old.held.at name.now result desk.new.held }
{
    if !desk.is_open() || !worker.is_open() {
        return NOT_OPEN;
    }
    let at = worker.worker().at();
    of_tried(desk.hall().desk.try_lock(at, name))
}

/// Gives a name back by the worker alone, and answers `FREE`; or else by `Desk::unlock`.
#[unsafe(no_mangle)]
pub extern "C" fn pashkure_desk_unlock(
    desk: &mut DeskHandle,
    worker: &mut WorkerHandle,
    name: &[u8],
) -> u32
    ensures closed { ¬ HasDesk desk.old ⊎ ¬ HasWorker worker.old → (result ≡ 32) × (desk.new ≡ desk.old) × (worker.new ≡ worker.old) }
    ensures open { (desk.new.state ≡ desk.old.state) × (worker.new.state ≡ worker.old.state) }
    ensures unlocks { HasDesk desk.old → HasWorker worker.old → TellsUnlockAt desk.old.held worker.old.held name.now result desk.new.held worker.new.held }
{
    if !desk.is_open() || !worker.is_open() {
        return NOT_OPEN;
    }
    of_unlocked(desk.hall().unlock(worker.worker(), name))
}

/// `Desk::commit`, after the worker has left all that it had taken.
#[unsafe(no_mangle)]
pub extern "C" fn pashkure_desk_commit(desk: &mut DeskHandle, worker: &mut WorkerHandle) -> u32
    ensures closed { ¬ HasDesk desk.old ⊎ ¬ HasWorker worker.old → (result ≡ 32) × (desk.new ≡ desk.old) × (worker.new ≡ worker.old) }
    ensures open { (desk.new.state ≡ desk.old.state) × (worker.new.state ≡ worker.old.state) }
    ensures commits { HasDesk desk.old → HasWorker worker.old → TellsCommitAt desk.old.held worker.old.held.at result desk.new.held }
    ensures leaves { HasDesk desk.old → HasWorker worker.old → GivesSomeUp worker.old.held worker.new.held }
{
    if !desk.is_open() || !worker.is_open() {
        return NOT_OPEN;
    }
    of_ended(desk.hall().commit(worker.worker()))
}

/// `Desk::abort`, after the worker has left all that it had taken.
#[unsafe(no_mangle)]
pub extern "C" fn pashkure_desk_abort(desk: &mut DeskHandle, worker: &mut WorkerHandle) -> u32
    ensures closed { ¬ HasDesk desk.old ⊎ ¬ HasWorker worker.old → (result ≡ 32) × (desk.new ≡ desk.old) × (worker.new ≡ worker.old) }
    ensures open { (desk.new.state ≡ desk.old.state) × (worker.new.state ≡ worker.old.state) }
    ensures aborts { HasDesk desk.old → HasWorker worker.old → TellsAbortAt desk.old.held worker.old.held.at result desk.new.held }
    ensures leaves { HasDesk desk.old → HasWorker worker.old → GivesSomeUp worker.old.held worker.new.held }
{
    if !desk.is_open() || !worker.is_open() {
        return NOT_OPEN;
    }
    of_ended(desk.hall().abort(worker.worker()))
}

/// `Desk::begin`. The key is written.
#[unsafe(no_mangle)]
pub extern "C" fn pashkure_desk_begin(desk: &mut DeskHandle, at: u32, key: &mut PlainKey) -> u32
    ensures closed { ¬ HasDesk desk.old → (result ≡ 32) × (desk.new ≡ desk.old) × (key.new ≡ key.old) }
    ensures open { desk.new.state ≡ desk.old.state }
    ensures begins { HasDesk desk.old → TellsBeginAt desk.old.held at key.old result key.new desk.new.held }
{
    if !desk.is_open() {
        return NOT_OPEN;
    }
    let answer = desk.hall().desk.begin(at);
    if let Ok(begun) = answer {
        *key = PlainKey::of(begun);
    }
    of_begin(answer)
}

/// `Desk::cancel`.
#[unsafe(no_mangle)]
pub extern "C" fn pashkure_desk_cancel(desk: &mut DeskHandle, at: u32) -> u32
    ensures closed { ¬ HasDesk desk.old → (result ≡ 32) × (desk.new ≡ desk.old) }
    ensures open { desk.new.state ≡ desk.old.state }
    ensures cancels { HasDesk desk.old → TellsCancelAt desk.old.held at result desk.new.held }
{
    if !desk.is_open() {
        return NOT_OPEN;
    }
    of_done(desk.hall().desk.cancel(at))
}

/// `Desk::adopt_all`.
#[unsafe(no_mangle)]
pub extern "C" fn pashkure_desk_adopt_all(desk: &mut DeskHandle) -> u32
    ensures closed { ¬ HasDesk desk.old → (result ≡ 32) × (desk.new ≡ desk.old) }
    ensures open { desk.new.state ≡ desk.old.state }
    ensures adopts { HasDesk desk.old → TellsAdoptAll desk.old.held result desk.new.held }
{
    if !desk.is_open() {
        return NOT_OPEN;
    }
    of_adopted(desk.hall().desk.adopt_all())
}

/// `Desk::free_all`.
#[unsafe(no_mangle)]
pub extern "C" fn pashkure_desk_free_all(desk: &mut DeskHandle)
    ensures closed { ¬ HasDesk desk.old → desk.new ≡ desk.old }
    ensures open { desk.new.state ≡ desk.old.state }
    ensures frees { HasDesk desk.old → FreesAll desk.old.held desk.new.held }
{
    if desk.is_open() {
        desk.hall().desk.free_all();
    }
}
