//! Names for as long as somebody uses them.
ghost use Rattle.std.specs.Prelude.{◌≡◌, ◌≢◌, ◌-◌, ◌<◌, ◌↔◌, ℕ, Some, length, slice_index, IfOk, OnErr, IsSome};
ghost use Rattle.mm_names.specs.Names.{Interns, name_of, nameless};

use mm_names::{Names, NamesConfig, NamesError, OpenError};
use std::alloc::Global;

/// Names, and how many use each: a name has a number exactly while somebody uses it.
#[derive(Drop)]
pub struct NamesInUse {
    pub names: Names,
    /// By number.
    pub users: Vec<u32>,
    ghost as_many: { length users.items ≡ length names.names },
    ghost used: { (n : ℕ) → IsSome (name_of names n) ↔ (0 < slice_index users.items n) },
}

impl NamesInUse {
    /// Nobody uses a name.
    ///
    /// Refused as [`Names::open`] is.
    pub fn open(alloc: Global, config: NamesConfig) -> Result<NamesInUse, OpenError>
        ensures { IfOk result (λ made. made.names ≡ nameless config.names config.name_bytes) }
    {
        let names = Names::open(alloc, config)?;
        let users = vec![in alloc; 0; config.names as usize]?;
        Ok(NamesInUse { names, users })
    }

    /// One more uses this name, by the number that it gets or has.
    ///
    /// Refused as [`Names::enter`] is; then nothing changes.
    pub fn take(&mut self, name: &[u8]) -> Result<u32, NamesError>
        ensures named { IfOk result (λ n. name_of self.new.names n ≡ Some name.now) }
        ensures used { IfOk result (λ n. 0 < slice_index self.new.users.items n) }
        ensures refused { OnErr result (self.new ≡ self.old) }
    {
        let number = number_of(&mut self.names, name)?;
        let users = &mut self.users[number as usize];
        *users = users.saturating_add(1);
        Ok(number)
    }

    /// One fewer uses the name of this number. It has none any more, if nobody else does.
    pub fn let_go(&mut self, number: u32)
        requires { number < length self.old.names.names }
        ensures users { slice_index self.new.users.items number ≡ slice_index self.old.users.items number - 1 }
        ensures others { (n : ℕ) → n ≢ number → name_of self.new.names n ≡ name_of self.old.names n }
    {
        let users = &mut self.users[number as usize];
        *users = users.saturating_sub(1);
        if *users == 0 {
            self.names.forget(number);
        }
    }
}

/// Returns the number of a name, which it has or gets.
fn number_of(names: &mut Names, name: &[u8]) -> Result<u32, NamesError>
    ensures interned { IfOk result (λ n. Interns names.old name.now n names.new) }
    ensures refused { OnErr result (names.new ≡ names.old) }
{
    Ok(names.enter(name)?.number)
}
