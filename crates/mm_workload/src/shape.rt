//! From what a workload is made that is generated.
ghost use Rattle.std.specs.Prelude.{◌≤◌};
ghost use Rattle.mm_limits.specs.declared.TheConstants.{MAX_ACQUIRES, MAX_CLIENTS, MAX_RESOURCES, MAX_TRANSACTIONS, MAX_TRANSMITTERS};

/// How many resources there are, how many words give a transaction a resource at most, and how many transactions each client makes.
#[derive(Clone, Copy, PartialEq, Eq)]
pub struct StormShape {
    pub resources: u32,
    pub acquires: u32,
    pub transactions: u32,
    ghost some_resources: { (1 ≤ resources) × (resources ≤ MAX_RESOURCES) },
    ghost some_acquires: { (1 ≤ acquires) × (acquires ≤ MAX_ACQUIRES) },
    ghost some_transactions: { (1 ≤ transactions) × (transactions ≤ MAX_TRANSACTIONS) },
}

impl StormShape {
    /// 8 resources, of which a client acquires at most 4 in its one transaction.
    pub const USUAL: StormShape = StormShape {
        resources: 8,
        acquires: 4,
        transactions: 1,
    };
}

/// From what a workload is generated: any seed, 1 to 64 clients, 0 to 64 transmitters, and a shape.
#[derive(Clone, Copy)]
pub struct StormOptions {
    pub seed: u64,
    pub clients: u32,
    pub transmitters: u32,
    pub shape: StormShape,
    ghost some_clients: { (1 ≤ clients) × (clients ≤ MAX_CLIENTS) },
    ghost few_transmitters: { transmitters ≤ MAX_TRANSMITTERS },
}
