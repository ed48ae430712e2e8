//! The table and the names of a manager that is opened.
ghost use Rattle.std.specs.Prelude.{◌≡◌, IfOk, IfErr, OnOk};
ghost use Rattle.mm_names.specs.Names.{nameless};
ghost use Rattle.mm_rules.specs.TableState.{IsWide, opening};
ghost use Rattle.mm_manager.specs.Opening.{table_config, IsTransactionsOut, IsNamesOut, IsNameBytesOut};

use crate::{ManagerConfig, OpenError};
use mm_names::Names;
use mm_settled::SettledTable;
use std::alloc::Global;

/// Returns the names of a manager: none yet. The numbers are in range.
pub fn open_names(alloc: Global, config: ManagerConfig) -> Result<Names, OpenError>
    requires names { ¬ IsNamesOut config }
    requires name_bytes { ¬ IsNameBytesOut config }
    ensures opened { IfOk result (λ names. names ≡ nameless config.names config.name_bytes) }
    ensures memory { IfErr result (λ error. error ≡ OpenError.Memory) }
{
    match Names::open(alloc, config.of_names()) {
        Ok(names) => Ok(names),
        Err(_) => Err(OpenError::Memory),
    }
}

/// Returns the table of a manager. The numbers are in range.
pub fn open_table(alloc: Global, config: ManagerConfig) -> Result<SettledTable, OpenError>
    requires transactions { ¬ IsTransactionsOut config }
    requires names { ¬ IsNamesOut config }
    ensures opened { IfOk result (λ table. table.table ≡ opening (table_config config)) }
    ensures range { OnOk result (IsWide (table_config config)) }
    ensures memory { IfErr result (λ error. error ≡ OpenError.Memory) }
{
    match SettledTable::open(alloc, config.of_table()) {
        Ok(table) => Ok(table),
        Err(_) => Err(OpenError::Memory),
    }
}
