//! The records of `include/pashkure.h`, with its members in its order.
ghost use Rattle.std.specs.Prelude.{◌≡◌};
ghost use Rattle.pashkure.specs.Plain.{key_of, config_of, plain_key, plain_wake, seen, plain_seen, counts_of};

use mm_manager::{Grant, Key, ManagerConfig, Status, Totals};

/// The key of a transaction. Its slot is the process of a `Key`.
#[repr(C)]
#[derive(Clone, Copy)]
pub struct PlainKey {
    pub slot: u32,
    pub generation: u32,
}

/// The numbers with which a manager is opened, and the version of the header that the program was compiled with.
#[repr(C)]
#[derive(Clone, Copy)]
pub struct PlainConfig {
    pub header: u32,
    pub transactions: u32,
    pub names: u32,
    pub name_bytes: u32,
    pub seed: u64,
    pub buckets: u32,
    pub names_each: u32,
}

/// Whose wait ended: it was given the name of this number.
#[repr(C)]
#[derive(Clone, Copy)]
pub struct PlainWake {
    pub key: PlainKey,
    pub number: u32,
}

/// A live transaction, and the holder and the number of what it waits for.
#[repr(C)]
#[derive(Clone, Copy)]
pub struct PlainSeen {
    pub key: PlainKey,
    pub holder: PlainKey,
    pub number: u32,
}

/// What was counted.
#[repr(C)]
#[derive(Clone, Copy)]
pub struct PlainCounts {
    pub begun: u64,
    pub committed: u64,
    pub aborted: u64,
    pub deadlocks: u64,
    pub waits: u64,
    pub withdrawn: u64,
    pub events: u64,
    pub reserved: u64,
}

impl PlainConfig {
    pub(crate) fn manager_config(&self) -> ManagerConfig
        ensures { result ≡ config_of self.now }
    {
        ManagerConfig {
            transactions: self.transactions,
            names: self.names,
            name_bytes: self.name_bytes,
            names_each: self.names_each,
            seed: self.seed,
        }
    }
}

impl PlainKey {
    pub(crate) const NONE: PlainKey = PlainKey {
        slot: 0,
        generation: 0,
    };

    pub(crate) fn key(self) -> Key
        ensures { result ≡ key_of self }
    {
        Key {
            process: self.slot,
            generation: self.generation,
        }
    }

    pub(crate) fn of(key: Key) -> PlainKey
        ensures { result ≡ plain_key key }
    {
        PlainKey {
            slot: key.process,
            generation: key.generation,
        }
    }
}

impl PlainWake {
    /// It was given the name.
    pub(crate) fn of(grant: Grant) -> PlainWake
        ensures { result ≡ plain_wake grant }
    {
        PlainWake {
            key: PlainKey::of(grant.key),
            number: grant.resource,
        }
    }
}

impl PlainSeen {
    /// A live transaction, and what it does.
    pub(crate) fn of(key: Key, status: Status) -> PlainSeen
        ensures { result ≡ plain_seen key status }
    {
        match status {
            Status::Active => PlainSeen::made(key, PlainKey::NONE, 0),
            Status::Waiting { number, holder } => {
                PlainSeen::made(key, PlainKey::of(holder), number)
            }
        }
    }

    fn made(key: Key, holder: PlainKey, number: u32) -> PlainSeen
        ensures { result ≡ seen key holder number }
    {
        PlainSeen {
            key: PlainKey::of(key),
            holder,
            number,
        }
    }
}

impl PlainCounts {
    pub(crate) const NONE: PlainCounts = PlainCounts {
        begun: 0,
        committed: 0,
        aborted: 0,
        deadlocks: 0,
        waits: 0,
        withdrawn: 0,
        events: 0,
        reserved: 0,
    };

    pub(crate) fn of(totals: Totals, events: u64) -> PlainCounts
        ensures { result ≡ counts_of totals events }
    {
        PlainCounts {
            begun: totals.begun,
            committed: totals.committed,
            aborted: totals.aborted,
            deadlocks: totals.deadlocks,
            waits: totals.waits,
            withdrawn: totals.withdrawn,
            events,
            reserved: 0,
        }
    }
}
