//! Chains of transactions of a settled table, the last of which take their waits back.
use mm_settled::SettledTable;
use mm_table::{Config, Key, Refusal};
use std::alloc::Global;

/// The chains of a table.
#[derive(Clone, Copy)]
struct Chains {
    /// How many transactions wait in each chain.
    waiting: u32,
    /// How many of them take their waits back, the last one of the chain first.
    withdrawals: u32,
    /// Whether the front of the chain has the greatest label, so that all others carry it.
    is_carried: bool,
    /// Whether the processes of a chain are numbered from its front on, or from its end.
    is_rising: bool,
}

impl Chains {
    /// The process at a place of the chain that begins at process `first`. At place 0 stands the one for which the front waits.
    fn process_at(self, first: u32, place: u32) -> u32 {
        if self.is_rising {
            first.wrapping_add(place)
        } else {
            first.wrapping_add(self.waiting).wrapping_sub(place)
        }
    }
}

/// The transaction of this process.
fn transaction(process: u32) -> Key {
    Key {
        process,
        generation: 1,
    }
}

/// Begins this many transactions, each of which locks the resource of its own number.
fn own_each(table: &mut SettledTable, processes: u32) -> Result<(), Refusal> {
    for process in 0..processes {
        let key = table.begin()?;
        table.acquire(key, process)?;
    }
    Ok(())
}

/// The transaction at one place of a chain comes to wait for the one before it.
fn wait(table: &mut SettledTable, first: u32, place: u32, chains: Chains) -> Result<(), Refusal> {
    let process = chains.process_at(first, place);
    table.acquire(
        transaction(process),
        chains.process_at(first, place.wrapping_sub(1)),
    )?;
    Ok(())
}

/// Those behind the front come to wait, one after another. So their labels rise along the chain.
fn wait_behind(table: &mut SettledTable, first: u32, chains: Chains) -> Result<(), Refusal> {
    for place in 1..chains.waiting {
        wait(table, first, place.wrapping_add(1), chains)?;
    }
    Ok(())
}

/// The one for which the front is to wait waits for it, and takes that back, once for each of the chain. Each wait raises its label by one.
fn rise(table: &mut SettledTable, first: u32, chains: Chains) -> Result<(), Refusal> {
    let key = transaction(chains.process_at(first, 0));
    for _ in 0..chains.waiting {
        table.acquire(key, chains.process_at(first, 1))?;
        table.withdraw(key)?;
    }
    Ok(())
}

/// The last ones of a chain take their waits back.
fn take_back(table: &mut SettledTable, first: u32, chains: Chains) -> Result<(), Refusal> {
    for count in 0..chains.withdrawals {
        let place = chains.waiting.wrapping_sub(count);
        table.withdraw(transaction(chains.process_at(first, place)))?;
    }
    Ok(())
}

/// Makes a chain, and shortens it. If the front is to have the greatest label, it begins to wait last, for one whose label is above all others.
fn chain(table: &mut SettledTable, first: u32, chains: Chains) -> Result<(), Refusal> {
    if chains.is_carried {
        rise(table, first, chains)?;
        wait_behind(table, first, chains)?;
        wait(table, first, 1, chains)?;
    } else {
        wait(table, first, 1, chains)?;
        wait_behind(table, first, chains)?;
    }
    take_back(table, first, chains)
}

/// Makes all chains that there is room for. Answers how many events were accepted.
fn make_all(table: &mut SettledTable, processes: u32, chains: Chains) -> Result<u64, Refusal> {
    own_each(table, processes)?;
    let room = chains.waiting.saturating_add(1);
    for number in 0..processes.checked_div(room).unwrap_or(0) {
        chain(table, number.wrapping_mul(room), chains)?;
    }
    Ok(table.table().totals().accepted)
}

fn shorten(alloc: Global, processes: u32, chains: Chains) -> Result<u64, Refusal> {
    let mut table = SettledTable::open(
        alloc,
        Config {
            processes,
            resources: processes,
            label_limit: Config::MAX_LABEL_LIMIT,
            generation_limit: u32::MAX,
        },
    )?;
    let accepted = make_all(&mut table, processes, chains);
    drop(table);
    accepted
}

/// In a table of this many processes, makes as many chains as there is room for, in each of which `waiting` transactions wait, each for the
/// one before it. Then the last `withdrawals` of each chain take their waits back, the last one first. If `is_carried`, all others carry the label
/// of the front: so each of these withdrawals gives the front a new label, and raises all others. If `is_rising`, the processes of a chain are
/// numbered from its front on, and one sweep of a settle passes a label along it; else from its end, and a sweep passes it by one process.
#[unsafe(no_mangle)]
pub extern "C" fn mm_bench_withdrawals(
    alloc: Global,
    processes: u32,
    waiting: u32,
    withdrawals: u32,
    is_carried: bool,
    is_rising: bool,
) -> u64 {
    let chains = Chains {
        waiting,
        withdrawals,
        is_carried,
        is_rising,
    };
    shorten(alloc, processes, chains).unwrap_or(0)
}
