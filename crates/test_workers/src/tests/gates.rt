//! When shared gates are over.

use crate::tests::passes::passes;
use mm_workers::{Gate, SharedGate, shared_gates};
use std::sync::Wait;
use std::test::Fail;

/// Whether the last gate says that all clients have left, after the client of the first one has.
fn is_over_after_one_more<R: Wait>(gates: &mut Vec<SharedGate<'_, R>>) -> bool {
    if let Some(gate) = gates.first_mut() {
        gate.leave();
    }
    match gates.last_mut() {
        Some(gate) => gate.over(),
        None => false,
    }
}

#[test]
fn gates_are_over_once_all_clients_have_left(rt: HostRuntime) -> Result<(), Fail> {
    let mut gates = shared_gates(&rt, rt.alloc(), 2, 3)?;
    let first = is_over_after_one_more(&mut gates);
    let second = is_over_after_one_more(&mut gates);
    drop(gates);
    passes(
        &rt,
        "gates_are_over_once_all_clients_have_left",
        !first && second,
    );
    Ok(())
}
