//! A wait is taken back.
ghost use Rattle.std.specs.Prelude.{◌≡◌};
ghost use Rattle.mm_desk.specs.Calls.{CancelsAt};

use crate::desk::Desk;
use mm_manager::Refusal;

impl Desk {
    /// Takes back the wait of a worker's transaction, which keeps what it owns.
    ///
    /// Refused as `NoTransaction`, or as `NotWaiting` if it was granted the name before.
    pub fn cancel(&mut self, at: u32) -> Result<(), Refusal>
        ensures cancels { CancelsAt self.old at result self.new }
        ensures rest { (self.new.office ≡ self.old.office) × (self.new.keys ≡ self.old.keys) }
    {
        match self.key_of(at) {
            Some(key) => self.books.cancel(key),
            None => Err(Refusal::NoTransaction),
        }
    }
}
