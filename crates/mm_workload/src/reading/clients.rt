//! The clients of a workload, and their steps.
ghost use Rattle.std.specs.Prelude.{◌≡◌, ◌≤◌, Some, None, MatchResult, IfOk, IfErr, length, map};
ghost use Rattle.std.specs.List.{All};
ghost use Rattle.serde_json.specs.View.{view};
ghost use Rattle.mm_workload.specs.Work.{IsShort};
ghost use Rattle.mm_workload.specs.Json.{clients_in, steps_of, step_of, step_by};
ghost use Rattle.mm_workload.specs.declared.fault.WorkFault.TheVariants.{Memory};

use crate::fault::{FaultPlace, StepFault, WorkFault};
use crate::limits::{MAX_CLIENTS, MAX_STEPS};
use crate::step::WorkStep;
use serde_json::Value;
use std::alloc::Global;

/// Returns the steps of each client.
pub(crate) fn clients(alloc: Global, value: &Value) -> Result<Vec<Vec<WorkStep>>, WorkFault>
    ensures ok { IfOk result (λ v. clients_in (view value.now) ≡ Some (map (λ c. c.items) v.items)) }
    ensures malformed { IfErr result (λ e. ¬ (e ≡ Memory) → clients_in (view value.now) ≡ None) }
    ensures few { IfOk result (λ v. (1 ≤ length v.items) × (length v.items ≤ 64)) }
    ensures short { IfOk result (λ v. All IsShort (map (λ c. c.items) v.items)) }
{
    let Some(found) = value.get("clients") else {
        return Err(WorkFault::Malformed(FaultPlace::Missing("clients")));
    };
    let Some(items) = found.as_array() else {
        return Err(WorkFault::Malformed(FaultPlace::Clients));
    };
    if items.is_empty() || items.len() > MAX_CLIENTS {
        return Err(WorkFault::Malformed(FaultPlace::Clients));
    }
    let mut made = Vec::new(alloc);
    'clients: for (index, item) in items.iter().enumerate() {
        made.push(steps(alloc, item, index + 1)?)?;
    }
    Ok(made)
}

/// Returns the steps of the client of this number, which counts from 1.
fn steps(alloc: Global, value: &Value, client: usize) -> Result<Vec<WorkStep>, WorkFault>
    ensures ok { IfOk result (λ v. steps_of (view value.now) ≡ Some v.items) }
    ensures malformed { IfErr result (λ e. ¬ (e ≡ Memory) → steps_of (view value.now) ≡ None) }
    ensures short { IfOk result (λ v. IsShort v.items) }
{
    let Some(items) = value.as_array() else {
        return Err(WorkFault::Malformed(FaultPlace::Client(client)));
    };
    if items.len() > MAX_STEPS {
        return Err(WorkFault::Malformed(FaultPlace::Client(client)));
    }
    let mut made = Vec::new(alloc);
    'steps: for (index, item) in items.iter().enumerate() {
        match step(item) {
            Ok(step) => made.push(step)?,
            Err(fault) => {
                let step = index + 1;
                return Err(WorkFault::Malformed(FaultPlace::Step {
                    client,
                    step,
                    fault,
                }));
            }
        }
    }
    Ok(made)
}

/// Returns the step that this value is.
fn step(value: &Value) -> Result<WorkStep, StepFault>
    ensures { MatchResult result (λ s. step_of (view value.now) ≡ Some s) (λ _. step_of (view value.now) ≡ None) }
{
    let (Some(word), Some(number), None) = (value.get(0), value.get(1), value.get(2)) else {
        return Err(StepFault::Form);
    };
    let Some(word) = word.as_str() else {
        return Err(StepFault::Form);
    };
    match number.as_u64() {
        Some(number) if number <= u64::from(u32::MAX) => step_by(word, number as u32),
        _ => Err(StepFault::Number),
    }
}

/// Returns the step of this word and this number.
fn step_by(word: &str, number: u32) -> Result<WorkStep, StepFault>
    ensures { MatchResult result (λ s. step_by word.now number ≡ Some s) (λ _. step_by word.now number ≡ None) }
{
    match word {
        "acquire" => Ok(WorkStep::Acquire(number)),
        "release" => Ok(WorkStep::Release(number)),
        "meet" => Ok(WorkStep::Meet(number)),
        _ => Err(StepFault::Word),
    }
}
