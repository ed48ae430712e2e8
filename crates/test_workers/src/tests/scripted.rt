//! Steps and a gate that answer by a script.
ghost use Rattle.std.specs.Prelude.{◌≡◌, ◌+◌, [], OnOk, OnErr};
ghost use Rattle.mm_board.specs.Views.{new_seen};

use crate::tests::script::{Answer, Call, Script};
use mm_shared::{Acquired, Detected, Key, Refusal, Released, Settled, Transmitted};
use mm_workers::{Gate, Hint, HintKind, Steps};
use test_support::label;

/// The key of each transaction.
const KEY: Key = Key {
    process: 0,
    generation: 1,
};

/// A table that answers by a script. It counts as a table does.
#[derive(Drop)]
pub struct ScriptedSteps<'a> {
    script: &'a Script<'a>,
    accepted: u64,
    verdicts: u64,
    aborts: u64,
}

/// The call, if it has the key of the script.
fn with(key: Key, call: Call) -> Call {
    if key == KEY { call } else { Call::Other }
}

/// A hint of this kind, that a process waits for process 0, or for 1 if it is that one.
fn hint(process: u32, kind: HintKind) -> Option<Hint> {
    Some(Hint {
        process,
        holder: u32::from(process == 0),
        kind,
    })
}

impl<'a> ScriptedSteps<'a> {
    pub fn new(script: &'a Script<'a>) -> ScriptedSteps<'a> {
        ScriptedSteps {
            script,
            accepted: 0,
            verdicts: 0,
            aborts: 0,
        }
    }

    /// The answer of an event, which is counted if it is accepted.
    fn event(&mut self, call: Call) -> Result<Answer, Refusal>
        ensures first { OnOk result (self.new.accepted ≡ self.old.accepted + 1) }
        ensures others { (self.new.verdicts ≡ self.old.verdicts) × (self.new.aborts ≡ self.old.aborts) }
        ensures refused { OnErr result (self.new ≡ self.old) }
    {
        let answer = self.script.answer(call);
        if let Answer::Refused(refusal) = answer {
            return Err(refusal);
        }
        let Some(accepted) = self.accepted.checked_add(1) else {
            return Err(Refusal::CountsExhausted);
        };
        self.accepted = accepted;
        Ok(answer)
    }
}

/// Two counts and what was seen are none; the parts are 0.
impl<'a> Steps for ScriptedSteps<'a> {
    ghost shares = { λ steps. record { parts = 0; accepted = steps.accepted; verdicts = steps.verdicts; aborts = steps.aborts; seen = new_seen [] } };

    fn begin(&mut self) -> Result<Key, Refusal> {
        self.event(Call::Begin)?;
        Ok(KEY)
    }

    fn acquire(&mut self, key: Key, resource: u32) -> Result<Acquired, Refusal> {
        match self.event(with(key, Call::Acquire(resource)))? {
            Answer::Waits => Ok(Acquired::Waits {
                holder: KEY,
                label: label(1, 0),
            }),
            _ => Ok(Acquired::Granted),
        }
    }

    fn release(&mut self, key: Key, resource: u32) -> Result<Released, Refusal> {
        self.event(with(key, Call::Release(resource)))?;
        Ok(Released::Free)
    }

    fn finish(&mut self, key: Key) -> Result<(), Refusal> {
        self.event(with(key, Call::Finish))?;
        Ok(())
    }

    fn transmit(&mut self, key: Key) -> Result<Transmitted, Refusal> {
        self.event(with(key, Call::Transmit))?;
        Ok(Transmitted::Still)
    }

    fn detect(&mut self, key: Key) -> Result<Detected, Refusal> {
        let Some(verdicts) = self.verdicts.checked_add(1) else {
            return Err(Refusal::CountsExhausted);
        };
        match self.event(with(key, Call::Detect))? {
            Answer::Deadlock => {
                self.verdicts = verdicts;
                Ok(Detected::Deadlock(label(1, 0)))
            }
            Answer::Standing => Ok(Detected::Standing),
            _ => Ok(Detected::Clear),
        }
    }

    fn abort(&mut self, key: Key) -> Result<(), Refusal> {
        let Some(aborts) = self.aborts.checked_add(1) else {
            return Err(Refusal::CountsExhausted);
        };
        self.event(with(key, Call::Abort))?;
        self.aborts = aborts;
        Ok(())
    }

    fn give_up(&mut self, _key: Key) -> Result<(), Refusal> {
        self.event(Call::Other)?;
        Ok(())
    }

    fn settle(&mut self) -> Result<Settled, Refusal> {
        let _ = self.script.answer(Call::Other);
        Err(Refusal::CountsExhausted)
    }

    fn tenant(&mut self, process: u32) -> Option<Key> {
        match self.script.answer(Call::Tenant(process)) {
            Answer::Done => Some(KEY),
            _ => None,
        }
    }

    fn scan(&mut self, from: u32) -> Option<Hint> {
        match self.script.answer(Call::Scan(from)) {
            Answer::Raise(process) => hint(process, HintKind::Raise),
            Answer::Equal(process) => hint(process, HintKind::Equal),
            _ => None,
        }
    }
}

/// A gate that answers by the same script.
#[derive(Drop)]
pub struct ScriptedGate<'a> {
    pub script: &'a Script<'a>,
}

impl<'a> Gate for ScriptedGate<'a> {
    fn arrive(&mut self) {
        let _ = self.script.answer(Call::Arrive);
    }

    fn may_pass(&mut self, arrivals: u32) -> bool {
        matches!(self.script.answer(Call::MayPass(arrivals)), Answer::Passes)
    }

    fn leave(&mut self) {
        let _ = self.script.answer(Call::Leave);
    }

    fn over(&mut self) -> bool {
        matches!(self.script.answer(Call::Over), Answer::Passes)
    }
}
