//! A request for a name.
ghost use Rattle.std.specs.Prelude.{◌≡◌};
ghost use Rattle.mm_lists.specs.Members.{Among};
ghost use Rattle.mm_manager.specs.Calls.{LocksName, TriesName};
ghost use Rattle.mm_manager.specs.Permit.{may_name};
ghost use Rattle.mm_thin.specs.Spread.{bucket_by};
ghost use Rattle.mm_desk.specs.Calls.{AdoptsBucket, RefusesBucket, KeepsFat, KeepsManager, asked_of, tried_of, RequestsAt, AsksAt, AsksNamed, AttemptsAt, TriesAt, TriesNamed};

use crate::desk::Desk;
use crate::reply::{Adopted, Asked, Tried};
use mm_manager::{Key, Lock, Refusal, TryLock};

impl Desk {
    /// Asks for a name, for the transaction of a worker. The name's bucket is made fat first, so who owns the name thinly is its owner in the
    /// manager, also if it waits itself; what else is thin stays thin. If the request is refused, the bucket is freed again, unless the manager
    /// has a name of it.
    ///
    /// Refused as `NameEmpty` or `NameTooLong` before anything else, and then nothing changes.
    pub fn ask(&mut self, at: u32, name: &[u8]) -> Result<Asked, Refusal>
        ensures { AsksAt self.old at name.now result self.new }
    {
        self.may_name(name)?;
        self.ask_named(at, name)
    }

    /// Asks for a name that the manager can have.
    fn ask_named(&mut self, at: u32, name: &[u8]) -> Result<Asked, Refusal>
        ensures { AsksNamed self.old at name.now result self.new }
    {
        match self.adopt_name(name) {
            Adopted::Fat => match self.request_at(at, name) {
                Ok(asked) => Ok(asked),
                Err(refusal) => {
                    self.free_name(name);
                    Err(refusal)
                }
            },
            Adopted::Changed => Ok(Asked::Again),
            Adopted::Refused(refusal) => Err(refusal),
        }
    }

    /// `ask`, but it never waits.
    pub fn try_lock(&mut self, at: u32, name: &[u8]) -> Result<Tried, Refusal>
        ensures { TriesAt self.old at name.now result self.new }
    {
        self.may_name(name)?;
        self.try_named(at, name)
    }

    /// Tries a name that the manager can have.
    fn try_named(&mut self, at: u32, name: &[u8]) -> Result<Tried, Refusal>
        ensures { TriesNamed self.old at name.now result self.new }
    {
        match self.adopt_name(name) {
            Adopted::Fat => match self.attempt_at(at, name) {
                Ok(tried) => Ok(tried),
                Err(refusal) => {
                    self.free_name(name);
                    Err(refusal)
                }
            },
            Adopted::Changed => Ok(Tried::Again),
            Adopted::Refused(refusal) => Err(refusal),
        }
    }

    /// Refuses bytes that can be no name of the manager.
    fn may_name(&self, name: &[u8]) -> Result<(), Refusal>
        ensures { result ≡ may_name self.now.manager.names.name_bytes name.now }
    {
        if name.is_empty() {
            return Err(Refusal::NameEmpty);
        }
        if name.len() > self.manager().config().name_bytes as usize {
            return Err(Refusal::NameTooLong);
        }
        Ok(())
    }

    /// Makes the bucket of a name fat.
    fn adopt_name(&mut self, name: &[u8]) -> Adopted
        ensures adopts { AdoptsBucket (bucket_by self.old.office.of.spread name.now) result self.new }
        ensures keeps { KeepsFat self.old self.new }
        ensures refused { RefusesBucket self.old (bucket_by self.old.office.of.spread name.now) result self.new }
    {
        let bucket = self.books.spread.of(name);
        self.adopt(bucket)
    }

    /// Frees the bucket of a name, if it is fat and no name of it is owned.
    fn free_name(&mut self, name: &[u8])
        ensures keeps { KeepsManager self.old self.new }
    {
        let bucket = self.books.spread.of(name);
        self.free_if_empty(bucket);
    }

    /// Asks for a name whose bucket is fat.
    fn request(&mut self, key: Key, name: &[u8]) -> Result<Lock, Refusal>
        requires { Among (bucket_by self.old.office.of.spread name.now) self.old.office.desk.fat }
        ensures locks { LocksName self.old.manager key name.now result self.new.manager }
        ensures rest { (self.new.office ≡ self.old.office) × (self.new.keys ≡ self.old.keys) }
    {
        self.books.lock(key, name)
    }

    /// Asks for a name whose bucket is fat, for the transaction of a worker.
    fn request_at(&mut self, at: u32, name: &[u8]) -> Result<Asked, Refusal>
        requires { Among (bucket_by self.old.office.of.spread name.now) self.old.office.desk.fat }
        ensures asks { RequestsAt self.old at name.now result self.new }
        ensures rest { (self.new.office ≡ self.old.office) × (self.new.keys ≡ self.old.keys) }
    {
        match self.key_of(at) {
            Some(key) => asked(self.request(key, name)),
            None => Err(Refusal::NoTransaction),
        }
    }

    /// Asks for a name whose bucket is fat, and never waits.
    fn attempt(&mut self, key: Key, name: &[u8]) -> Result<TryLock, Refusal>
        requires { Among (bucket_by self.old.office.of.spread name.now) self.old.office.desk.fat }
        ensures tries { TriesName self.old.manager key name.now result self.new.manager }
        ensures rest { (self.new.office ≡ self.old.office) × (self.new.keys ≡ self.old.keys) }
    {
        self.books.try_lock(key, name)
    }

    /// Asks for a name whose bucket is fat, for the transaction of a worker, and never waits.
    fn attempt_at(&mut self, at: u32, name: &[u8]) -> Result<Tried, Refusal>
        requires { Among (bucket_by self.old.office.of.spread name.now) self.old.office.desk.fat }
        ensures tries { AttemptsAt self.old at name.now result self.new }
        ensures rest { (self.new.office ≡ self.old.office) × (self.new.keys ≡ self.old.keys) }
    {
        match self.key_of(at) {
            Some(key) => tried(self.attempt(key, name)),
            None => Err(Refusal::NoTransaction),
        }
    }
}

/// The same answer as a request is told.
fn asked(answer: Result<Lock, Refusal>) -> Result<Asked, Refusal>
    ensures { result ≡ asked_of answer }
{
    match answer {
        Ok(Lock::Granted) => Ok(Asked::Granted),
        Ok(Lock::Held) => Ok(Asked::Held),
        Ok(Lock::Waits { holder }) => Ok(Asked::Waits { holder }),
        Ok(Lock::Deadlock { holder }) => Ok(Asked::Deadlock { holder }),
        Err(refusal) => Err(refusal),
    }
}

/// The same answer as a try is told.
fn tried(answer: Result<TryLock, Refusal>) -> Result<Tried, Refusal>
    ensures { result ≡ tried_of answer }
{
    match answer {
        Ok(TryLock::Granted) => Ok(Tried::Granted),
        Ok(TryLock::Held) => Ok(Tried::Held),
        Ok(TryLock::Busy { holder }) => Ok(Tried::Busy { holder }),
        Err(refusal) => Err(refusal),
    }
}
