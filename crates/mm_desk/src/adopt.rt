//! A thin name is handed to the manager.
ghost use Rattle.std.specs.Prelude.{◌≡◌, ◌<◌, ◌/◌, IfErr, OnOk, OnErr, IsTrue, slice_get};
ghost use Rattle.mm_lists.specs.Members.{Among};
ghost use Rattle.mm_desk.specs.Calls.{GrowsBy, NamesFade, OwnersStay, WaitsStay, IsTakenOver, KeepsFat, AdoptsBucket, RefusesBucket, IsOffered};

use crate::books::Books;
use crate::desk::Desk;
use crate::reply::Adopted;
use mm_manager::{Key, Refusal, TryLock};
use mm_thin::{Got, RECORDS};

impl Desk {
    /// Makes a bucket fat. If it was thin, its name is owned from now on in the manager, by the transaction of the worker that had taken it.
    pub(crate) fn adopt(&mut self, bucket: usize) -> Adopted
        requires { bucket < self.old.office.of.table.words }
        ensures adopts { AdoptsBucket bucket result self.new }
        ensures keeps { KeepsFat self.old self.new }
        ensures refused { RefusesBucket self.old bucket result self.new }
    {
        match self.office.fatten(bucket) {
            Got::WasFat => Adopted::Fat,
            Got::WasFree => Adopted::Fat,
            Got::Changed => Adopted::Changed,
            Got::WasThin(number, name) => {
                match offer(
                    &mut self.books,
                    key_of_record(&self.keys, number),
                    bucket,
                    name.as_slice(),
                ) {
                    Ok(()) => {
                        self.lent_to[bucket] = number;
                        Adopted::Fat
                    }
                    Err(refusal) => {
                        self.office.thin_again(bucket, number);
                        Adopted::Refused(refusal)
                    }
                }
            }
        }
    }
}

/// The key of the transaction of the worker that has this record.
fn key_of_record(keys: &Vec<Key>, number: u32) -> Option<Key>
    ensures { result ≡ slice_get keys.now.items (number / RECORDS) }
{
    keys.get(number as usize / RECORDS).copied()
}

/// Makes the transaction of the worker that had taken a thin bucket the owner of its name in the manager, also if it waits.
///
/// Refused as the manager refuses; as `NoTransaction` also if the name is of another bucket or is owned by another, which does not happen.
fn offer(books: &mut Books, key: Option<Key>, bucket: usize, name: &[u8]) -> Result<(), Refusal>
    ensures ok { OnOk result (IsTakenOver books.new key bucket name.now) }
    ensures err { OnErr result (NamesFade books.old.manager books.new.manager) }
    ensures refused { IfErr result (λ refusal. IsOffered books.old key bucket name.now refusal books.new) }
    ensures grows { GrowsBy books.old.manager name.now books.new.manager }
    ensures stay { OwnersStay books.old.manager books.new.manager }
    ensures waits { WaitsStay books.old.manager books.new.manager }
    ensures spread { books.new.spread ≡ books.old.spread }
{
    if books.spread.of(name) != bucket {
        return Err(Refusal::NoTransaction);
    }
    let Some(key) = key else {
        return Err(Refusal::NoTransaction);
    };
    match books.adopt(key, name) {
        Ok(TryLock::Granted) => Ok(()),
        Ok(TryLock::Held) => Ok(()),
        Ok(TryLock::Busy { .. }) => Err(Refusal::NoTransaction),
        Err(refusal) => Err(refusal),
    }
}
