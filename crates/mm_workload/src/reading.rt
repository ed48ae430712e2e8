//! A workload from the bytes of a JSON file. `clients` reads the clients and their steps.
//!
//! Each function returns what its value says, or the place where it says nothing: nothing is read twice.
ghost use Rattle.std.specs.Prelude.{◌≡◌, ◌≤◌, ◌<◌, Err, Some, None, MatchResult, IfOk, IfErr, codes, length};
ghost use Rattle.serde_json.specs.View.{view};
ghost use Rattle.mm_rules.specs.declared.config.Config.{Config};
ghost use Rattle.mm_workload.specs.Work.{Work};
ghost use Rattle.mm_workload.specs.Json.{whole_at, SaysConfig, SaysWork, Says, SaysNone};
ghost use Rattle.mm_workload.specs.declared.fault.WorkFault.TheVariants.{Memory};

mod clients;

use crate::fault::{FaultPlace, WorkFault};
use crate::limits::{MAX_BYTES, MAX_TRANSMITTERS, MAX_TURNS};
use crate::stream::StreamOrigin;
use crate::workload::Workload;
use clients::clients;
use mm_rules::Config;
use serde_json::{Error, Value};
use std::alloc::Global;

/// The greatest number of 32 bits.
const MAX_U32: u64 = u32::MAX as u64;

/// Returns the workload that these bytes say.
pub(crate) fn read(alloc: Global, bytes: &[u8]) -> Result<Workload, WorkFault>
    ensures ok { IfOk result (λ w. Says bytes.now w) }
    ensures malformed { IfErr result (λ e. ¬ (e ≡ Memory) → SaysNone bytes.now) }
    ensures memory { result ≡ Err Memory → (0 < length bytes.now) × (length bytes.now ≤ 1048576) }
{
    if bytes.len() > MAX_BYTES {
        return Err(WorkFault::Malformed(FaultPlace::TooLong));
    }
    match Value::from_slice(alloc, bytes) {
        Ok(value) => work(alloc, &value),
        Err(error) if error.is_memory() => Err(WorkFault::Memory),
        Err(error) => Err(WorkFault::Malformed(place_of(&error))),
    }
}

/// Where the text is at fault.
fn place_of(error: &Error) -> FaultPlace {
    let (line, column) = (error.line(), error.column());
    if error.is_eof() {
        FaultPlace::CutShort { line, column }
    } else {
        FaultPlace::Json { line, column }
    }
}

/// Returns the workload that this value says.
fn work(alloc: Global, value: &Value) -> Result<Workload, WorkFault>
    ensures ok { IfOk result (λ w. SaysWork (view value.now) w) }
    ensures malformed { IfErr result (λ e. ¬ (e ≡ Memory) → (w : Work) → ¬ SaysWork (view value.now) w) }
{
    let config = config(value)?;
    let transmitters = number(value, "transmitters", 0, MAX_TRANSMITTERS)?;
    let turns = number(value, "turns", 1, MAX_TURNS)?;
    let clients = clients(alloc, value)?;
    Ok(Workload::of(
        config,
        transmitters as u32,
        turns,
        clients,
        StreamOrigin::none(),
    ))
}

/// Returns the table's numbers.
fn config(value: &Value) -> Result<Config, FaultPlace>
    ensures { MatchResult result (λ c. SaysConfig (view value.now) c) (λ _. (c : Config) → ¬ SaysConfig (view value.now) c) }
{
    let processes = number(value, "processes", 0, MAX_U32)?;
    let resources = number(value, "resources", 0, MAX_U32)?;
    let label_limit = number(value, "label_limit", 0, u64::MAX)?;
    let generation_limit = number(value, "generation_limit", 0, MAX_U32)?;
    Ok(Config {
        processes: processes as u32,
        resources: resources as u32,
        label_limit,
        generation_limit: generation_limit as u32,
    })
}

/// Returns the number under this key.
fn number(value: &Value, key: &'static str, least: u64, most: u64) -> Result<u64, FaultPlace>
    ensures { MatchResult result (λ n. whole_at least most key.now (view value.now) ≡ Some n)
        (λ _. whole_at least most key.now (view value.now) ≡ None) }
{
    let Some(found) = value.get(key) else {
        return Err(missing(value, key));
    };
    match found.as_u64() {
        Some(number) if least <= number && number <= most => Ok(number),
        _ => Err(FaultPlace::Number { key, least, most }),
    }
}

/// Returns why the value has nothing under this key.
fn missing(value: &Value, key: &'static str) -> FaultPlace {
    if value.is_object() {
        FaultPlace::Missing(key)
    } else {
        FaultPlace::NotAnObject
    }
}
