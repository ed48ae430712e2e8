//! The opening of a desk, and its workers.
ghost use Rattle.std.specs.Prelude.{◌≡◌, ◌↔◌, ◌⊎◌, Err, IfErr, IfOk, OnErr};
ghost use Rattle.mm_thin.specs.Calls.{AddsWorker};
ghost use Rattle.mm_thin.specs.Opening.{Opens};
ghost use Rattle.mm_manager.specs.Opening.{opening_state, IsTransactionsOut, IsNamesOut, IsNameBytesOut};
ghost use Rattle.mm_manager.specs.declared.refusal.OpenError.{OpenError as ManagerError};
ghost use Rattle.mm_manager.specs.declared.refusal.OpenError.TheVariants as manager;
ghost use Rattle.mm_thin.specs.declared.config.OpenError.TheVariants as office;
ghost use Rattle.mm_desk.specs.Calls.{HasNoNames};
ghost use Rattle.mm_desk.specs.Opening.{AreBucketsOut, IsMemory, IsRange, thin_config};

use crate::books::Books;
use crate::desk::Desk;
use crate::error::OpenError;
use mm_manager::{Key, LockManager, ManagerConfig};
use mm_thin::{Office, Spread, ThinConfig, Worker, WorkerError};
use std::alloc::{AllocError, Global};

/// The numbers with which a desk is opened. There are as many workers as the manager has transactions.
#[derive(Clone, Copy, Debug, PartialEq, Eq)]
pub struct DeskConfig {
    pub manager: ManagerConfig,
    /// How many buckets there are: 1 to 16,777,216.
    pub buckets: u32,
}

impl Desk {
    /// A desk of this configuration: nobody owns a name, or has taken one. All transactions of the manager are begun, one a worker.
    ///
    /// Refused as `Buckets`, or else as `Transactions`, `Names` or `NameBytes`, exactly if that number of the configuration is out of its
    /// range, and otherwise only if a request for memory was refused.
    pub fn open(alloc: Global, config: DeskConfig) -> Result<Desk, OpenError>
        ensures opened { IfOk result (λ desk. HasNoNames desk.manager × Opens (thin_config config) desk.office) }
        ensures buckets { (result ≡ Err (OpenError.Office office.Buckets)) ↔ AreBucketsOut config }
        ensures transactions { (result ≡ Err (OpenError.Manager manager.Transactions)) ↔ (¬ AreBucketsOut config × IsTransactionsOut config.manager) }
        ensures names { (result ≡ Err (OpenError.Manager manager.Names)) ↔ (¬ AreBucketsOut config × ¬ IsTransactionsOut config.manager × IsNamesOut config.manager) }
        ensures name_bytes { (result ≡ Err (OpenError.Manager manager.NameBytes)) ↔ (¬ AreBucketsOut config × ¬ IsTransactionsOut config.manager × ¬ IsNamesOut config.manager × IsNameBytesOut config.manager) }
        ensures refused { IfErr result (λ error. IsRange error ⊎ IsMemory error) }
    {
        if config.buckets == 0 || config.buckets > ThinConfig::MAX_BUCKETS {
            return Err(OpenError::Office(mm_thin::OpenError::Buckets));
        }
        let manager = open_manager(alloc, config.manager)?;
        Desk::open_over(alloc, config, manager)
    }

    /// A desk over a manager that was just opened. Refused only if a request for memory was refused.
    fn open_over(alloc: Global, config: DeskConfig, manager: LockManager) -> Result<Desk, OpenError>
        requires manager { manager ≡ opening_state config.manager }
        requires buckets { ¬ AreBucketsOut config }
        requires workers { ¬ IsTransactionsOut config.manager }
        ensures opened { IfOk result (λ desk. HasNoNames desk.manager × Opens (thin_config config) desk.office) }
        ensures refused { IfErr result IsMemory }
    {
        let office = open_office(alloc, config)?;
        let mut books = open_books(alloc, manager, office.spread())?;
        let keys = begin_all(alloc, &mut books, config.manager.transactions)?;
        let lent_to = vec![in alloc; 0u32; books.spread.buckets()]?;
        Ok(Desk {
            books,
            office,
            keys,
            lent_to,
        })
    }

    /// A worker more. Refused as `Full` exactly if there are as many workers as transactions, and as `Memory` only if a request for memory was
    /// refused; then nothing changes.
    pub fn add_worker(&mut self, alloc: Global) -> Result<Worker, WorkerError>
        ensures added { IfOk result (λ worker. AddsWorker self.old.office worker self.new.office) }
        ensures full { (result ≡ Err WorkerError.Full) ↔ (self.old.office.workers ≡ self.old.office.max_workers) }
        ensures rest { (self.new.manager ≡ self.old.manager) × (self.new.keys ≡ self.old.keys) }
        ensures refused { OnErr result (self.new ≡ self.old) }
    {
        self.office.add_worker(alloc)
    }
}

/// A manager of this configuration.
fn open_manager(alloc: Global, config: ManagerConfig) -> Result<LockManager, OpenError>
    ensures opened { IfOk result (λ manager. manager ≡ opening_state config) }
    ensures transactions { (result ≡ Err (OpenError.Manager manager.Transactions)) ↔ IsTransactionsOut config }
    ensures names { (result ≡ Err (OpenError.Manager manager.Names)) ↔ (¬ IsTransactionsOut config × IsNamesOut config) }
    ensures name_bytes { (result ≡ Err (OpenError.Manager manager.NameBytes)) ↔ (¬ IsTransactionsOut config × ¬ IsNamesOut config × IsNameBytesOut config) }
    ensures refused { IfErr result (λ error. (e : ManagerError) × (error ≡ OpenError.Manager e)) }
{
    match LockManager::open(alloc, config) {
        Ok(manager) => Ok(manager),
        Err(error) => Err(OpenError::Manager(error)),
    }
}

/// An office of this configuration.
fn open_office(alloc: Global, config: DeskConfig) -> Result<Office, OpenError>
    requires buckets { ¬ AreBucketsOut config }
    requires workers { ¬ IsTransactionsOut config.manager }
    ensures opened { IfOk result (Opens (thin_config config)) }
    ensures refused { IfErr result (λ error. error ≡ OpenError.Office office.Memory) }
{
    let thin = ThinConfig {
        buckets: config.buckets,
        workers: config.manager.transactions,
        name_bytes: config.manager.name_bytes,
        seed: config.manager.seed,
    };
    match Office::open(alloc, thin) {
        Ok(office) => Ok(office),
        Err(error) => Err(OpenError::Office(error)),
    }
}

/// Books of a manager that was just opened.
fn open_books(alloc: Global, manager: LockManager, spread: Spread) -> Result<Books, AllocError>
    requires { (config : ManagerConfig) × (manager ≡ opening_state config) }
    ensures { IfOk result (λ books. HasNoNames books.manager × (books.spread ≡ spread)) }
{
    let counts = vec![in alloc; 0u32; spread.buckets()]?;
    Ok(Books {
        manager,
        spread,
        counts,
    })
}

/// Begins so many transactions, or as many as the manager begins.
fn begin_all(alloc: Global, books: &mut Books, workers: u32) -> Result<Vec<Key>, AllocError>
    requires { HasNoNames books.old.manager }
    ensures none { HasNoNames books.new.manager }
    ensures spread { books.new.spread ≡ books.old.spread }
{
    let mut keys = Vec::with_capacity(alloc, workers as usize)?;
    for _ in 0..workers {
        if let Ok(key) = books.begin() {
            keys.push_reserved(key);
        }
    }
    Ok(keys)
}
