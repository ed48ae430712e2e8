//! All jobs at once.
ghost use Rattle.std.specs.Prelude.{◌≡◌, IfOk, vec_len};

use crate::crew::{start_all, two_crews};
use crate::job::Job;
use std::alloc::{AllocError, Global};
use std::sync::Wait;
use std::thread;
use std::thread::{Scope, Threads};

/// Runs all jobs at once, each on a thread of its own, and waits for them. What they give back stands in the order of the jobs of each kind.
///
/// Refused if memory is refused or a thread cannot be started. The threads that were started have ended then. Takes memory; `O(jobs)`.
pub fn run_jobs<'a, J: Job + Send + 'a, K: Job + Send + 'a, R: Threads + Wait + Sync>(
    rt: &'a R,
    alloc: Global,
    first: Vec<J>,
    second: Vec<K>,
) -> Result<(Vec<J::Gives>, Vec<K::Gives>), AllocError>
where
    J::Gives: Send + 'a,
    K::Gives: Send + 'a,
    ensures first { IfOk result (λ done. vec_len done.0 ≡ vec_len first) }
    ensures second { IfOk result (λ done. vec_len done.1 ≡ vec_len second) }
{
    thread::scope(
        thread::scope_env(),
        rt,
        |scope| -> Result<(Vec<J::Gives>, Vec<K::Gives>), AllocError>
            ensures { IfOk result (λ done. (vec_len done.0 ≡ vec_len first) × (vec_len done.1 ≡ vec_len second)) }
        { run_in(scope, rt, alloc, first, second) },
    )
}

/// `run_jobs`, in this scope. All memory for what comes back is taken before the first thread starts.
fn run_in<'s, 'e, J: Job + Send + 'e, K: Job + Send + 'e, R: Threads + Wait + Sync>(
    scope: &'s Scope<'s, &'e ()>,
    rt: &'e R,
    alloc: Global,
    first: Vec<J>,
    second: Vec<K>,
) -> Result<(Vec<J::Gives>, Vec<K::Gives>), AllocError>
where
    J::Gives: Send + 'e,
    K::Gives: Send + 'e,
    ensures first { IfOk result (λ done. vec_len done.0 ≡ vec_len first) }
    ensures second { IfOk result (λ done. vec_len done.1 ≡ vec_len second) }
{
    let (mut first_crew, mut second_crew) = two_crews(alloc, first.len(), second.len())?;
    start_all(
        scope,
        first,
        second,
        &mut first_crew.threads,
        &mut second_crew.threads,
    )?;
    Ok((first_crew.join(rt), second_crew.join(rt)))
}
