//! The numbers with which a manager is opened.
ghost use Rattle.std.specs.Prelude.{◌≡◌, ◌⊎◌, ◌↔◌, ◌<◌, true};

use crate::OpenError;
use mm_names::NamesConfig;
use mm_settled::Config;

/// The numbers with which a [`LockManager`](crate::LockManager) is opened. They never change.
#[derive(Clone, Copy, Debug, PartialEq, Eq)]
pub struct ManagerConfig {
    /// How many transactions there can be at once: 1 to 65,536.
    pub transactions: u32,
    /// How many names can be owned at once: 1 to 16,777,216.
    pub names: u32,
    /// How many bytes a name may have: 1 to 1,024. Memory is taken for this many bytes of each name.
    pub name_bytes: u32,
    /// How many names a transaction may own, so that one that asks for many is refused before it owns the names of all others: any number, and
    /// 0 for as many as there are.
    pub names_each: u32,
    /// Any number. Keep it from those who choose the names: with it they could choose names of one hash.
    pub seed: u64,
}

impl ManagerConfig {
    ghost use Rattle.std.specs.Prelude.{◌≡◌, ◌↔◌, Err};
    ghost use Rattle.mm_manager.specs.Opening.{table_config, IsTransactionsOut, IsNamesOut, IsNameBytesOut};

    /// Returns whether each number is in its range.
    pub(crate) fn check(&self) -> Result<(), OpenError>
        ensures transactions { (result ≡ Err OpenError.Transactions) ↔ IsTransactionsOut self.now }
        ensures names { (result ≡ Err OpenError.Names) ↔ (¬ IsTransactionsOut self.now × IsNamesOut self.now) }
        ensures name_bytes { (result ≡ Err OpenError.NameBytes) ↔ (¬ IsTransactionsOut self.now × ¬ IsNamesOut self.now × IsNameBytesOut self.now) }
        ensures memory { ¬ (result ≡ Err OpenError.Memory) }
    {
        if is_out(self.transactions, Config::MAX_PROCESSES) {
            return Err(OpenError::Transactions);
        }
        if is_out(self.names, NamesConfig::MAX_NAMES) {
            return Err(OpenError::Names);
        }
        if is_out(self.name_bytes, NamesConfig::MAX_NAME_BYTES) {
            return Err(OpenError::NameBytes);
        }
        Ok(())
    }

    /// Returns the numbers of its table: a resource for each name. Labels and generations may be as great as a table allows.
    pub(crate) fn of_table(&self) -> Config
        ensures { result ≡ table_config self.now }
    {
        Config {
            processes: self.transactions,
            resources: self.names,
            label_limit: Config::MAX_LABEL_LIMIT,
            generation_limit: u32::MAX,
        }
    }

    /// Returns the numbers of its names.
    pub(crate) fn of_names(&self) -> NamesConfig
        ensures names { result.names ≡ self.now.names }
        ensures name_bytes { result.name_bytes ≡ self.now.name_bytes }
    {
        NamesConfig {
            names: self.names,
            name_bytes: self.name_bytes,
            seed: self.seed,
        }
    }
}

/// Returns whether a number is not from 1 to this one.
fn is_out(number: u32, most: u32) -> bool
    ensures { (result ≡ true) ↔ ((number ≡ 0) ⊎ (most < number)) }
{
    !(1..=most).contains(&number)
}
