//! The threads of jobs of one kind.
ghost use Rattle.std.specs.Prelude.{◌≡◌, IfOk, vec_len, vec_capacity};

use crate::job::Job;
use std::alloc::{AllocError, Global};
use std::sync::Wait;
use std::thread::{JoinHandle, Scope, Threads};

/// The threads of one kind, and the list of what they give back.
#[derive(Drop)]
pub struct Crew<T: Drop> {
    pub threads: Vec<JoinHandle<T>>,
    pub results: Vec<T>,
}

impl<T: Drop> Crew<T> {
    /// Nobody yet, with room for this many.
    pub fn new(alloc: Global, len: usize) -> Result<Crew<T>, AllocError>
        ensures threads { IfOk result (λ crew. (vec_len crew.threads ≡ 0) × (vec_capacity crew.threads ≡ len)) }
        ensures results { IfOk result (λ crew. (vec_len crew.results ≡ 0) × (vec_capacity crew.results ≡ len)) }
    {
        let threads = Vec::with_capacity(alloc, len)?;
        let results = Vec::with_capacity(alloc, len)?;
        Ok(Crew { threads, results })
    }

    /// Waits for all threads. What they give back stands in their order.
    pub fn join<R: Threads + Wait>(self, rt: &R) -> Vec<T>
        requires room { (vec_len self.results ≡ 0) × (vec_capacity self.results ≡ vec_len self.threads) }
        ensures each { vec_len result ≡ vec_len self.threads }
    {
        let Crew {
            threads,
            mut results,
        } = self;
        join_all(rt, threads, &mut results);
        results
    }
}

/// Returns a crew with room for this many jobs of the first kind, and one with room for this many of the second.
pub fn two_crews<T: Drop, U: Drop>(
    alloc: Global,
    first: usize,
    second: usize,
) -> Result<(Crew<T>, Crew<U>), AllocError>
    ensures first_threads { IfOk result (λ crews. (vec_len crews.0.threads ≡ 0) × (vec_capacity crews.0.threads ≡ first)) }
    ensures first_results { IfOk result (λ crews. (vec_len crews.0.results ≡ 0) × (vec_capacity crews.0.results ≡ first)) }
    ensures second_threads { IfOk result (λ crews. (vec_len crews.1.threads ≡ 0) × (vec_capacity crews.1.threads ≡ second)) }
    ensures second_results { IfOk result (λ crews. (vec_len crews.1.results ≡ 0) × (vec_capacity crews.1.results ≡ second)) }
{
    let first_crew = Crew::new(alloc, first)?;
    let second_crew = Crew::new(alloc, second)?;
    Ok((first_crew, second_crew))
}

/// Starts a thread for each job of the first kind, and then for each of the second.
pub fn start_all<'s, 'e, J: Job + Send + 'e, K: Job + Send + 'e>(
    scope: &'s Scope<'s, &'e ()>,
    first: Vec<J>,
    second: Vec<K>,
    first_threads: &mut Vec<JoinHandle<J::Gives>>,
    second_threads: &mut Vec<JoinHandle<K::Gives>>,
) -> Result<(), AllocError>
where
    J::Gives: Send + 'e,
    K::Gives: Send + 'e,
    requires first { (vec_len first_threads.old ≡ 0) × (vec_capacity first_threads.old ≡ vec_len first) }
    requires second { (vec_len second_threads.old ≡ 0) × (vec_capacity second_threads.old ≡ vec_len second) }
    ensures first { IfOk result (λ _. vec_len first_threads.new ≡ vec_len first) }
    ensures second { IfOk result (λ _. vec_len second_threads.new ≡ vec_len second) }
{
    start_each(scope, first, first_threads)?;
    start_each(scope, second, second_threads)
}

/// Starts a thread for each job.
fn start_each<'s, 'e, J: Job + Send + 'e>(
    scope: &'s Scope<'s, &'e ()>,
    jobs: Vec<J>,
    threads: &mut Vec<JoinHandle<J::Gives>>,
) -> Result<(), AllocError>
where
    J::Gives: Send + 'e,
    requires room { (vec_len threads.old ≡ 0) × (vec_capacity threads.old ≡ vec_len jobs) }
    ensures each { IfOk result (λ _. vec_len threads.new ≡ vec_len jobs) }
{
    for job in jobs {
        threads.push_reserved(scope.spawn(move || job.run())?);
    }
    Ok(())
}

/// Waits for all of these threads. What they give back stands in their order.
fn join_all<R: Threads + Wait, T: Drop>(rt: &R, threads: Vec<JoinHandle<T>>, results: &mut Vec<T>)
    requires room { (vec_len results.old ≡ 0) × (vec_capacity results.old ≡ vec_len threads) }
    ensures each { vec_len results.new ≡ vec_len threads }
{
    for thread in threads {
        results.push_reserved(thread.join(rt));
    }
}
