//! A job for each worker of a workload.
ghost use Rattle.std.specs.Prelude.{◌≡◌, ◌+◌, ◌<◌, IfOk, length, vec_len};

use crate::divisible::Divisible;
use crate::job::{ClientJob, TransmitterJob};
use mm_clients::Gate;
use mm_workload::{TransactionStream, WorkStep, Workload};
use std::alloc::{AllocError, Global};

/// Returns a job for each client of the workload, in order, each with a part of the table.
pub fn client_jobs<S: Divisible + Drop, G: Gate + Drop>(
    alloc: Global,
    table: &mut S,
    workload: &Workload,
    gates: Vec<G>,
) -> Result<Vec<ClientJob<S, G>>, AllocError>
    requires gates { vec_len gates ≡ length workload.now.clients }
    requires parts { vec_len gates < (S.shares table.old).parts }
    ensures each { IfOk result (λ jobs. vec_len jobs ≡ length workload.now.clients) }
    ensures parts { IfOk result (λ jobs. (S.shares table.new).parts + vec_len jobs ≡ (S.shares table.old).parts) }
    ensures aborts { (S.shares table.new).aborts ≡ (S.shares table.old).aborts }
{
    let turns = workload.turns();
    let mut jobs = Vec::with_capacity(alloc, gates.len())?;
    let mut place = 0usize;
    for gate in gates {
        let (work, stream) = transactions_of(workload, place)?;
        place += 1;
        jobs.push_reserved(ClientJob::new(table, gate, work, stream, turns));
    }
    Ok(jobs)
}

/// Returns the first transaction of the client at this place, with room for each that follows it, and these.
fn transactions_of(
    workload: &Workload,
    place: usize,
) -> Result<(Vec<WorkStep>, TransactionStream), AllocError>
    requires { place < length workload.now.clients }
{
    let mut work = workload.clients()[place].clone()?;
    let stream = workload.stream_of(place as u64 + 1);
    stream.make_room(&mut work)?;
    Ok((work, stream))
}

/// Returns a job for each transmitter, each with a part of the table.
pub fn transmitter_jobs<S: Divisible + Drop, G: Gate + Drop>(
    alloc: Global,
    table: &mut S,
    workload: &Workload,
    gates: Vec<G>,
) -> Result<Vec<TransmitterJob<S, G>>, AllocError>
    requires gates { vec_len gates ≡ workload.now.transmitters }
    requires parts { 64 < (S.shares table.old).parts }
    ensures each { IfOk result (λ jobs. vec_len jobs ≡ vec_len gates) }
    ensures parts { IfOk result (λ jobs. (S.shares table.new).parts + vec_len jobs ≡ (S.shares table.old).parts) }
    ensures aborts { (S.shares table.new).aborts ≡ (S.shares table.old).aborts }
{
    let mut jobs = Vec::with_capacity(alloc, workload.transmitters() as usize)?;
    for gate in gates {
        jobs.push_reserved(TransmitterJob::new(table, gate, workload.turns()));
    }
    Ok(jobs)
}
