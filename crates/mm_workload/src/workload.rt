use crate::fault::WorkFault;
use crate::reading;
use crate::step::WorkStep;
use crate::stream::{StreamOrigin, TransactionStream};
use mm_rules::Config;
use std::alloc::Global;
use std::marker::Model;

/// What clients and transmitters are to do on a table. It never changes, and each of its numbers is in its range.
///
/// A table's numbers are tested by `Table::open`, and not here.
#[derive(Drop)]
pub struct Workload {
    config: Config,
    transmitters: u32,
    turns: u64,
    clients: Vec<Vec<WorkStep>>,
    further: StreamOrigin,
}

impl Model for Workload {
    ghost use Rattle.std.specs.Prelude.{map};
    ghost use Rattle.mm_workload.specs.Work.{Work, IsWithinLimits};

    ghost Value = { Work };

    ghost view = { λ w. record {
      config = w.config;
      transmitters = w.transmitters;
      turns = w.turns;
      clients = map (λ c. c.items) w.clients.items;
      further = w.further;
    } };

    ghost invariant = { λ w. IsWithinLimits (record {
      config = w.config;
      transmitters = w.transmitters;
      turns = w.turns;
      clients = map (λ c. c.items) w.clients.items;
      further = w.further;
    }) };
}

impl Workload {
    ghost use Rattle.std.specs.Prelude.{◌≡◌, ◌≤◌, ◌<◌, Err, IfOk, IfErr, length, map};
    ghost use Rattle.std.specs.List.{All};
    ghost use Rattle.mm_workload.specs.Work.{Work, IsShort, IsWithinLimits};
    ghost use Rattle.mm_workload.specs.Storm.{stream_of};
    ghost use Rattle.mm_workload.specs.Json.{Says, SaysNone};
    ghost use Rattle.mm_workload.specs.declared.fault.WorkFault.TheVariants.{Memory};

    /// Returns a workload of numbers that are in their ranges.
    pub(crate) fn of(
        config: Config,
        transmitters: u32,
        turns: u64,
        clients: Vec<Vec<WorkStep>>,
        further: StreamOrigin,
    ) -> Workload
        requires { IsWithinLimits (record {
          config = config;
          transmitters = transmitters;
          turns = turns;
          clients = map (λ c. c.items) clients.items;
          further = further;
        }) }
        ensures { result ≡ record {
          config = config;
          transmitters = transmitters;
          turns = turns;
          clients = map (λ c. c.items) clients.items;
          further = further;
        } }
    {
        Workload {
            config,
            transmitters,
            turns,
            clients,
            further,
        }
    }

    /// Returns the workload that the bytes of a JSON file say. They say one at most. Takes memory, for the JSON value and for the
    /// workload; `O(n log n)` in the number of bytes, since an object's members are kept in the order of their keys.
    ///
    /// Refused as `Malformed` exactly if the bytes say none, also if there are more than 1,048,576 of them, and as
    /// `Memory` only if a request for memory was refused.
    pub fn read(alloc: Global, bytes: &[u8]) -> Result<Workload, WorkFault>
        ensures ok { IfOk result (λ w. Says bytes.now w) }
        ensures only { IfOk result (λ w. (v : Work) → Says bytes.now v → v ≡ w) }
        ensures malformed { IfErr result (λ e. ¬ (e ≡ Memory) → SaysNone bytes.now) }
        ensures memory { result ≡ Err Memory → (0 < length bytes.now) × (length bytes.now ≤ 1048576) }
    {
        reading::read(alloc, bytes)
    }

    /// Returns the numbers that the table is opened with. Any numbers: `Table::open` tests them. Constant time.
    pub fn config(&self) -> Config
        ensures { result ≡ self.now.config }
    {
        self.config
    }

    /// Returns how many transmitters there are: 0 to 64. Constant time.
    pub fn transmitters(&self) -> u32
        ensures value { result ≡ self.now.transmitters }
        ensures range { result ≤ 64 }
    {
        self.transmitters
    }

    /// Returns how many turns each client and each transmitter has: 1 to 1,000,000,000. Constant time.
    pub fn turns(&self) -> u64
        ensures value { result ≡ self.now.turns }
        ensures range { (1 ≤ result) × (result ≤ 1000000000) }
    {
        self.turns
    }

    /// Returns the transactions that the client of this number makes after its first one; clients count from 1. Of a workload that was read
    /// there are none. Constant time.
    pub fn stream_of(&self, client: u64) -> TransactionStream
        ensures { result ≡ stream_of self.now.further client }
    {
        self.further.of_client(client)
    }

    /// Returns the steps of each client's first transaction, in order: 1 to 64 clients, with 0 to 256 steps each. Constant time.
    pub fn clients(&self) -> &[Vec<WorkStep>]
        ensures value { map (λ c. c.items) result.now ≡ self.now.clients }
        ensures range { (1 ≤ length result.now) × (length result.now ≤ 64) }
        ensures short { All IsShort (map (λ c. c.items) result.now) }
    {
        self.clients.as_slice()
    }
}
