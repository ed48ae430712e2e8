//! A workload from a seed.
ghost use Rattle.std.specs.Prelude.{◌≡◌, ◌≤◌, ◌+◌, [], MatchResult, IfOk, OnOk, map};
ghost use Rattle.std.specs.List.{list_any};
ghost use Rattle.mm_workload.specs.Shapes.{shape_of};
ghost use Rattle.mm_workload.specs.Storm.{acquires, after, client_of, clients_from, draws, generator, storm_config, storm_of, storm_with, with_resource};
ghost use Rattle.mm_workload.specs.declared.fault.WorkFault.TheVariants.{Memory};

use crate::fault::WorkFault;
use crate::shape::{StormOptions, StormShape};
use crate::step::WorkStep;
use crate::stream::StreamOrigin;
use crate::workload::Workload;
use mm_rules::Config;
use rand_core::utils::NextWord;
use rand_pcg::Lcg64Xsh32;
use std::alloc::{AllocError, Global};

/// Returns the workload that is made from this seed: the same one for the same arguments. Takes memory; `O(clients)`.
///
/// It is the storm of the usual shape (`shaped_storm`): 8 resources, of which a client acquires at most 4 in its one transaction.
///
/// Refused as `Memory` only if a request for memory was refused.
pub fn storm(
    alloc: Global,
    seed: u64,
    clients: u32,
    transmitters: u32,
) -> Result<Workload, WorkFault>
    requires clients { (1 ≤ clients) × (clients ≤ 64) }
    requires transmitters { transmitters ≤ 64 }
    ensures { MatchResult result (λ w. w ≡ storm_of seed clients transmitters) (λ e. e ≡ Memory) }
{
    let options = StormOptions {
        seed,
        clients,
        transmitters,
        shape: StormShape::USUAL,
    };
    shaped_storm(alloc, &options)
}

/// Returns the workload that is generated from these numbers: the same one for the same numbers. Takes memory; `O(clients * acquires)`,
/// and for each client the square of its resources.
///
/// The words are those of the generator PCG-XSH-RR, `rand_pcg`'s `Lcg64Xsh32::new(seed, 0)`, in the order in which it gives
/// them. For each client in turn one word gives a count of 1 to `acquires`, and then this many words each give one of the
/// resources, which the client acquires in that order. A resource that the client has already is passed over. There are as many
/// processes as clients.
///
/// These are the first transactions. A further transaction of a client is drawn in the same way, by words of the stream of the client's
/// number; the first client has the number 1 (`Workload::stream_of`).
///
/// Refused as `Memory` only if a request for memory was refused.
pub fn shaped_storm(alloc: Global, options: &StormOptions) -> Result<Workload, WorkFault>
    ensures { MatchResult result (λ w. w ≡ storm_with (shape_of options.now.shape) options.now.seed options.now.clients options.now.transmitters) (λ e. e ≡ Memory) }
{
    let StormOptions {
        seed,
        clients,
        transmitters,
        shape,
    } = *options;
    let config = config_of(&shape, clients);
    let further = StreamOrigin::new(seed, shape);
    let clients = acquiring_clients(alloc, &shape, seed, clients)?;
    Ok(Workload::of(config, transmitters, 10_000_000, clients, further))
}

/// Returns the numbers of the table. If a client makes several transactions, no limit of keys or labels is in their way.
fn config_of(shape: &StormShape, clients: u32) -> Config
    ensures { result ≡ storm_config (shape_of shape.now) clients }
{
    let (label_limit, generation_limit) = if shape.transactions == 1 {
        (1_000_000_000, 9)
    } else {
        (17_592_186_044_415, u32::MAX)
    };
    Config {
        processes: clients,
        resources: shape.resources,
        label_limit,
        generation_limit,
    }
}

/// Returns the steps of each of `count` clients.
fn acquiring_clients(
    alloc: Global,
    shape: &StormShape,
    seed: u64,
    count: u32,
) -> Result<Vec<Vec<WorkStep>>, AllocError>
    ensures { IfOk result (λ v. map (λ c. c.items) v.items ≡ clients_from (shape_of shape.now) count (generator seed)) }
{
    let mut words = Lcg64Xsh32::new(seed, 0);
    let mut clients = Vec::new(alloc);
    'clients: for _ in 0..count {
        clients.push(client(alloc, shape, &mut words)?)?;
    }
    Ok(clients)
}

/// Returns the steps of a client, by the next words.
fn client(
    alloc: Global,
    shape: &StormShape,
    words: &mut Lcg64Xsh32,
) -> Result<Vec<WorkStep>, AllocError>
    ensures steps { IfOk result (λ v. v.items ≡ client_of (shape_of shape.now) words.old) }
    ensures words { OnOk result (words.new ≡ after (1 + draws (shape_of shape.now) words.old) words.old) }
{
    let mut steps = Vec::new(alloc);
    draw(shape, words, &mut steps)?;
    Ok(steps)
}

/// Draws the steps of a transaction, by the next words.
pub(crate) fn draw(
    shape: &StormShape,
    words: &mut Lcg64Xsh32,
    steps: &mut Vec<WorkStep>,
) -> Result<(), AllocError>
    requires empty { steps.old.items ≡ [] }
    ensures steps { OnOk result (steps.new.items ≡ client_of (shape_of shape.now) words.old) }
    ensures words { OnOk result (words.new ≡ after (1 + draws (shape_of shape.now) words.old) words.old) }
{
    let draws = 1 + words.next_word() % shape.acquires;
    'draws: for _ in 0..draws {
        let resource = words.next_word() % shape.resources;
        acquire(steps, resource)?;
    }
    Ok(())
}

/// The client acquires the resource, unless it has it already.
fn acquire(steps: &mut Vec<WorkStep>, resource: u32) -> Result<(), AllocError>
    ensures { OnOk result (steps.new.items ≡ with_resource steps.old.items resource) }
{
    if !has(steps.as_slice(), resource) {
        steps.push(WorkStep::Acquire(resource))?;
    }
    Ok(())
}

/// Returns whether one of the steps acquires the resource.
fn has(steps: &[WorkStep], resource: u32) -> bool
    ensures { result ≡ list_any (acquires resource) steps.now }
{
    steps.iter().any(|step| matches!(step, WorkStep::Acquire(had) if *had == resource))
}
