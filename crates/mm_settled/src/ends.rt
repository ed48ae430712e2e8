//! The calls by which resources are handed over: a release, and the end of a transaction.
ghost use Rattle.std.specs.Prelude.{◌≡◌, OnOk};
ghost use Rattle.mm_rules.specs.Event.{Step, Release, Finish};
ghost use Rattle.mm_rules.specs.Laws.{AtRest, Laws};
ghost use Rattle.mm_settle_lemmas.specs.Touched.{changed_processes};
ghost use Rattle.mm_settled.specs.Calls.{Makes};
ghost use Rattle.mm_settled.specs.Grants.{grants};
ghost use Rattle.mm_settled.specs.private.Ends.{Ends, ListsOwned};
ghost use Rattle.mm_settled.specs.private.Lists.{Fits};

use crate::lists::{list_given, sort};
use crate::parts::Parts;
use crate::settle::{come_to_rest, has_room};
use crate::{Grant, Key, Refusal, Released};

impl Parts {
    /// Hands the resource over, and settles the table if one of those that this changed waits.
    pub fn release(&mut self, key: Key, resource: u32) -> Result<Released, Refusal>
        requires rest { AtRest self.old.table }
        requires fits { Fits self.old.table.config self.old.lists }
        ensures makes { Makes (Release key resource) self.old.table result self.new.table }
        ensures ends { Ends self.old.table self.new.table key.process self.new.lists }
    {
        self.table.keeps_laws();
        if !has_room(&self.table) {
            self.lists.granted.clear();
            return Err(Refusal::CountsExhausted);
        }
        let answer = self.release_listing(key, resource)?;
        come_to_rest(&mut self.table, &self.lists.woken);
        Ok(answer)
    }

    /// Ends an active transaction, and settles the table if one of those that this changed waits. What it owned is listed.
    #[inline(always)]
    pub fn finish(&mut self, key: Key) -> Result<(), Refusal>
        requires rest { AtRest self.old.table }
        requires fits { Fits self.old.table.config self.old.lists }
        ensures makes { Makes (Finish key) self.old.table result self.new.table }
        ensures ends { Ends self.old.table self.new.table key.process self.new.lists }
        ensures owned { OnOk result (ListsOwned self.old.table key self.new.lists.owned.items) }
    {
        self.table.keeps_laws();
        if !has_room(&self.table) {
            self.lists.granted.clear();
            return Err(Refusal::CountsExhausted);
        }
        self.finish_listing(key)?;
        come_to_rest(&mut self.table, &self.lists.woken);
        Ok(())
    }

    /// `Table::release`, which also lists what it grants, and which processes it changes.
    fn release_listing(&mut self, key: Key, resource: u32) -> Result<Released, Refusal>
        requires laws { Laws self.old.table }
        requires fits { Fits self.old.table.config self.old.lists }
        ensures step { Step (Release key resource) self.old.table result self.new.table }
        ensures granted { self.new.lists.granted.items ≡ grants self.old.table self.new.table }
        ensures woken { self.new.lists.woken.items ≡ changed_processes self.old.table self.new.table }
        ensures fits { Fits self.old.table.config self.new.lists }
    {
        self.lists.granted.clear();
        let answer = self
            .table
            .release_waking(key, resource, &mut self.lists.woken)?;
        if let Released::To(key) = answer {
            self.lists.granted.push_reserved(Grant { key, resource });
        }
        Ok(answer)
    }

    /// Ends a transaction in the table, and lists what it owned, what that grants, and which processes it changes. If it changes nobody, it grants
    /// nothing.
    #[inline(always)]
    fn finish_listing(&mut self, key: Key) -> Result<(), Refusal>
        requires laws { Laws self.old.table }
        requires fits { Fits self.old.table.config self.old.lists }
        ensures step { Step (Finish key) self.old.table result self.new.table }
        ensures granted { self.new.lists.granted.items ≡ grants self.old.table self.new.table }
        ensures woken { self.new.lists.woken.items ≡ changed_processes self.old.table self.new.table }
        ensures fits { Fits self.old.table.config self.new.lists }
        ensures owned { OnOk result (ListsOwned self.old.table key self.new.lists.owned.items) }
    {
        self.lists.granted.clear();
        self.table
            .finish_listing(key, &mut self.lists.owned, &mut self.lists.woken)?;
        if self.lists.woken.is_empty() {
            return Ok(());
        }
        sort(&mut self.lists.resources, &mut self.lists.owned);
        list_given(&self.table, &self.lists.owned, &mut self.lists.granted);
        Ok(())
    }
}
