//! A worker's next transaction.
ghost use Rattle.std.specs.Prelude.{◌≡◌};
ghost use Rattle.mm_desk.specs.Calls.{BeginsAt};

use crate::desk::Desk;
use mm_manager::{Key, Refusal};

impl Desk {
    /// Begins the next transaction of a worker whose transaction has ended, and returns its key; if that transaction is live, nothing
    /// changes, and the key is its.
    pub fn begin(&mut self, at: u32) -> Result<Key, Refusal>
        ensures { BeginsAt self.old at result self.new }
    {
        let Some(key) = self.key_of(at) else {
            return Err(Refusal::NoTransaction);
        };
        self.books.manager.keeps_laws();
        if self.books.manager.status(key).is_ok() {
            return Ok(key);
        }
        match self.books.begin() {
            Ok(next) => {
                self.keys[at as usize] = next;
                Ok(next)
            }
            Err(refusal) => Err(refusal),
        }
    }
}
