//! A worker gives up what it has taken: a name, or all.
ghost use Rattle.std.specs.Prelude.{◌≡◌};
ghost use Rattle.mm_thin.specs.Calls.{GivesAllBack, GivesBack, LeavesName};

use crate::reply::GiveUp;
use crate::worker::Worker;

impl Worker {
    /// Gives a name back, unless its bucket is fat.
    #[inline]
    pub fn give_back_name(&mut self, name: &[u8]) -> GiveUp
        ensures { GivesBack self.old name.now result self.new }
    {
        match self.find(name) {
            Some(k) => self.give_back(k),
            None => GiveUp::NotTaken,
        }
    }

    /// Gives back all that it has taken, but for what is fat. Returns whether something is left. One compare-and-swap for each name.
    #[inline]
    pub fn give_back_all(&mut self) -> bool
        ensures { GivesAllBack self.old result self.new }
    {
        let mut is_left = false;
        let mut k = self.used();
        while k > 0 {
            k -= 1;
            if let GiveUp::Changed = self.give_back(k) {
                is_left = true;
            }
        }
        is_left
    }

    /// Lets go all that it has taken and that is fat. Returns whether something is left.
    pub fn let_go_all(&mut self) -> bool
        ensures { GivesAllBack self.old result self.new }
    {
        let mut is_left = false;
        let mut k = self.used();
        while k > 0 {
            k -= 1;
            if let GiveUp::Changed = self.let_go(k) {
                is_left = true;
            }
        }
        is_left
    }

    /// Gives back all that it has taken, or lets it go if it is fat. Returns whether something is left: what the office was just making fat.
    pub fn leave_all(&mut self) -> bool
        ensures { GivesAllBack self.old result self.new }
    {
        let mut is_left = false;
        let mut k = self.used();
        while k > 0 {
            k -= 1;
            if let GiveUp::Changed = self.leave(k) {
                is_left = true;
            }
        }
        is_left
    }

    /// Gives back what this record has taken, or lets it go if it is fat.
    fn leave(&mut self, k: usize) -> GiveUp
        ensures { LeavesName self.old k result self.new }
    {
        match self.give_back(k) {
            GiveUp::Done => GiveUp::Done,
            GiveUp::NotTaken => GiveUp::NotTaken,
            GiveUp::Changed => self.let_go(k),
        }
    }
}
