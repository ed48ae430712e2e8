//! What is printed on standard error for a person while a workload is run. If that cannot be written, it is left out, and the run goes on.

use mm_clients::{End, Outcome};
use mm_workload::Workload;
use std::io::Eprint;
use std::time::{Clock, Instant};

/// Prints what is run.
pub fn print_workload(rt: &impl Eprint, name: &str, work: &Workload) {
    let config = work.config();
    let (clients, transmitters) = (work.clients().len(), work.transmitters());
    let _ = eprintln!(rt;
        "{name}: clients {clients}, transmitters {transmitters}, turns of each {}",
        work.turns()
    );
    let _ = eprintln!(rt;
        "{name}: processes {}, resources {}, label limit {}, generation limit {}",
        config.processes, config.resources, config.label_limit, config.generation_limit
    );
}

/// Prints how the run ended that began then.
pub fn print_outcome(rt: &(impl Clock + Eprint), begun: Option<Instant>, outcome: &Outcome) {
    print_ends(rt, outcome.ends.as_slice());
    print_duration(rt, begun, outcome.report.accepted);
}

/// Prints of each client that did not finish how it ended. Clients count from 1.
fn print_ends(rt: &impl Eprint, ends: &[End]) {
    for (place, end) in ends.iter().enumerate() {
        let client = place.wrapping_add(1);
        let _ = match end {
            End::Finished => Ok(()),
            End::Aborted => eprintln!(rt; "client {client} aborted"),
            End::Spent => eprintln!(rt; "client {client} spent: it used all of its turns"),
            End::Refused(number) => eprintln!(rt; "client {client} refused {number}"),
        };
    }
}

/// Prints how long it took, and how many calls of the table were accepted.
fn print_duration(rt: &(impl Clock + Eprint), begun: Option<Instant>, accepted: u64) {
    let took = match begun {
        Some(begun) => begun.elapsed(rt).ok(),
        None => None,
    };
    let _ = match took {
        Some(took) => eprintln!(rt;
            "took {}.{:06} s, calls accepted {accepted}",
            took.as_secs(),
            took.subsec_micros()
        ),
        None => eprintln!(rt; "calls accepted {accepted}"),
    };
}
