//! What threads call.
ghost use Rattle.std.specs.Prelude.{◌≡◌, ◌<◌, [], ◌∷◌, List, IfOk, IfErr};
ghost use Rattle.atomic_table.specs.Table.{Allows};
ghost use Rattle.mm_tied.specs.History.{Extends, IsSound, nobody};
ghost use Rattle.mm_tied.specs.Rule.{Found, IsKept, Makes, lock_word};
ghost use Rattle.mm_tied.specs.Mutex.{IsPassOf, IsSamePass, opened};

use crate::lock::{AT, Pass, Steps, TiedMutex};
use crate::rule::{Comes, Puts, Takes, Tells};
use crate::story::{Events, Story};
use atomic_table::{Refused, Table};
use mm_mutex::{Awake, stay_away};
use std::alloc::{AllocError, AllocFailed, Global};
use std::marker::Brand;
use std::snapshot::Snapshot;
use std::sync::Wait;
use std::time::Clock;

/// How many words the table has. The lock's is in the middle, so no other data lies within 64 bytes of it.
const WORDS: usize = 32;

/// How often a thread that finds the lock taken yields its processor before it asks for the lock again.
const FIRST_YIELDS: u32 = 2;

/// How often a thread asks again before it sleeps until the lock is free. Before each further time it yields twice as often.
const TURNS: u32 = 8;

impl<T, S, E, Y: Story<T, S, E>> TiedMutex<T, S, E, Y> {
    /// A free lock round this value, of which nothing is told yet.
    pub fn new(alloc: Global, value: T) -> Result<TiedMutex<T, S, E, Y>, AllocFailed<T>>
        ensures opened { IfOk result (λ lock. opened lock ≡ value) }
        ensures failed { IfErr result (λ back. back.value ≡ value) }
    {
        let first = Snapshot::of(&value);
        let Ok(mut values) = Vec::with_capacity(alloc, 1) else {
            return Err(AllocFailed { value });
        };
        values.push_reserved(value);
        match Table::new(alloc, &[0; WORDS], values, &first) {
            Ok((table, _)) => Ok(TiedMutex { table }),
            Err(Refused { slots }) => Err(AllocFailed { value: only(slots) }),
        }
    }

    /// A pass that has made no call.
    pub fn pass(&self) -> Pass<T, S, E>
        ensures own { IsPassOf self.now result }
        ensures new { result.me ≡ (nobody, []) }
        ensures sound { IsSound Y.makes (Y.state (opened self.now)) result.id result.me.0 }
    {
        self.table.shared.load_new_seat::<Comes>(AT).1
    }

    /// Takes the lock. Constant time if it is free; else the thread waits until the thread that has it lets go.
    // In place if it is free.
    #[inline(always)]
    pub fn take<R: Wait>(&self, rt: &R, pass: &mut Pass<T, S, E>)
        requires own { IsPassOf self.now pass.old }
        requires hands { pass.old.me.1 ≡ [] }
        ensures own { IsSamePass pass.old pass.new }
        ensures found { Found Y.state pass.old.me.0 pass.new.me }
    {
        if self
            .table
            .shared
            .compare_exchange::<Takes<Y>>(pass, AT, 0, 1)
            == 0
        {
            return;
        }
        self.contended(rt, pass);
    }

    /// Waits for the lock, and takes it. Asking again at once would slow down the one that has it, who is done soon: so the thread stays away
    /// for longer and longer, and the other one makes several calls in the meantime.
    #[inline(never)]
    fn contended<R: Wait>(&self, rt: &R, pass: &mut Pass<T, S, E>)
        requires own { IsPassOf self.now pass.old }
        requires hands { pass.old.me.1 ≡ [] }
        ensures own { IsSamePass pass.old pass.new }
        ensures found { Found Y.state pass.old.me.0 pass.new.me }
    {
        let mut yields = FIRST_YIELDS;
        for _ in 0..TURNS {
            stay_away(yields);
            if self
                .table
                .shared
                .compare_exchange::<Takes<Y>>(pass, AT, 0, 1)
                == 0
            {
                return;
            }
            yields = yields.saturating_mul(2);
        }
        self.sleep(rt, pass);
    }

    /// `take` by a thread that reads a clock if the lock is taken: it yields for 50 microseconds at most before it sleeps.
    #[inline(always)]
    pub fn take_by_clock<R: Wait + Clock>(&self, rt: &R, pass: &mut Pass<T, S, E>)
        requires own { IsPassOf self.now pass.old }
        requires hands { pass.old.me.1 ≡ [] }
        ensures own { IsSamePass pass.old pass.new }
        ensures found { Found Y.state pass.old.me.0 pass.new.me }
    {
        if self
            .table
            .shared
            .compare_exchange::<Takes<Y>>(pass, AT, 0, 1)
            == 0
        {
            return;
        }
        self.contended_by_clock(rt, pass);
    }

    /// `contended`, by the clock.
    #[inline(never)]
    fn contended_by_clock<R: Wait + Clock>(&self, rt: &R, pass: &mut Pass<T, S, E>)
        requires own { IsPassOf self.now pass.old }
        requires hands { pass.old.me.1 ≡ [] }
        ensures own { IsSamePass pass.old pass.new }
        ensures found { Found Y.state pass.old.me.0 pass.new.me }
    {
        let awake = Awake::new(rt);
        let mut yields = FIRST_YIELDS;
        for _ in 0..TURNS {
            if !awake.stay_away(rt, yields) {
                break;
            }
            if self
                .table
                .shared
                .compare_exchange::<Takes<Y>>(pass, AT, 0, 1)
                == 0
            {
                return;
            }
            yields = yields.saturating_mul(2);
        }
        self.sleep(rt, pass);
    }

    /// Sleeps until the lock is free, and takes it.
    fn sleep<R: Wait>(&self, rt: &R, pass: &mut Pass<T, S, E>)
        requires own { IsPassOf self.now pass.old }
        requires hands { pass.old.me.1 ≡ [] }
        ensures own { IsSamePass pass.old pass.new }
        ensures found { Found Y.state pass.old.me.0 pass.new.me }
    {
        for _ in rt.forever() {
            if self.table.shared.swap::<Takes<Y>>(pass, AT, 2) == 0 {
                return;
            }
            self.table.shared.park(rt, AT, 2);
        }
        unreachable!()
    }

    /// The steps of the lock, with which a pass that has the lock finds the value: `pass.slot_mut(lock.steps(), 0)`.
    #[inline(always)]
    pub fn steps(&self) -> &Steps<T, S, E, Y>
        ensures { result.now ≡ self.now.table.shared }
    {
        &self.table.shared
    }

    /// Gives the lock back, and puts these events at the end of the history. A thread that sleeps for the lock is woken.
    #[inline(always)]
    pub fn put<N: Events<E>, X>(&self, pass: &mut Pass<T, S, E>, about: &X)
        requires own { IsPassOf self.now pass.old }
        requires made { Makes Y.state Y.makes N.events pass.old.me }
        ensures own { IsSamePass pass.old pass.new }
        ensures hands { pass.new.me.1 ≡ [] }
        ensures extends { Extends Y.makes (Y.state (opened self.now)) pass.old.id pass.old.me.0 N.events pass.new.me.0 }
    {
        self.put_told::<Brand>(pass);
    }

    /// Gives the lock back.
    #[inline(always)]
    fn put_told<N: Tells<T, S, E>>(&self, pass: &mut Pass<T, S, E>)
        requires own { IsPassOf self.now pass.old }
        requires told { Allows (IsKept Y.state Y.makes (Y.state (opened self.now))) 1 pass.old.id pass.old.me lock_word (λ _. 0) (λ found now. N.tells pass.old.me now) }
        ensures own { IsSamePass pass.old pass.new }
        ensures told { N.tells pass.old.me pass.new.me }
    {
        if self.table.shared.swap::<Puts<N>>(pass, AT, 0) == 2 {
            self.table.shared.wake_one(AT);
        }
    }
}

/// The only value of a list.
fn only<T>(mut values: Vec<T>) -> T
    requires { (value : T) × (values.items ≡ value ∷ []) }
    ensures { values.items ≡ result ∷ [] }
{
    let Some(value) = values.pop() else {
        unreachable!()
    };
    values.destroy_empty();
    value
}
