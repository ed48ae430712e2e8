//! The labels of all processes.
ghost use Rattle.std.specs.Prelude.{◌≡◌, ◌≤◌, ◌<◌, ℕ, IfOk, IsTrue, length, map, slice_set};
ghost use Rattle.std.specs.List.{range_with_len};
ghost use Rattle.mm_label.specs.Label.{counter_range, process_range};
ghost use Rattle.mm_table.specs.private.Labels.{opening_labels, private_in, public_in, both, labels_under, FitUnder, added_each};

use mm_bit_set::BitSet;
use mm_label::{Label, fresh_in_range};
use mm_transactions::Waiters;
use std::alloc::{AllocError, Global};
use std::marker::Model;

/// The labels of one process.
#[derive(Clone, Copy)]
pub struct ProcessLabels {
    pub private: Label,
    pub public: Label,
}

/// The labels of each process, which outlive its transactions. All of the memory is taken at the opening.
#[derive(Drop)]
pub struct Labels {
    processes: Vec<ProcessLabels>,
    /// No public label has a greater counter.
    greatest: Label,
}

impl Model for Labels {
    ghost use Rattle.std.specs.Prelude.{List};
    ghost use Rattle.mm_table.specs.declared.labels.ProcessLabels.{ProcessLabels};
    ghost use Rattle.mm_table.specs.private.Labels.{AreAtMost};

    ghost Value = { List ProcessLabels };

    ghost view = { λ labels. labels.processes.items };

    ghost invariant = { λ labels. AreAtMost labels.greatest.counter labels.processes.items };
}

impl Labels {
    /// Returns the labels of this many processes, none of which was ever used.
    pub fn open(alloc: Global, count: u32) -> Result<Labels, AllocError>
        requires { count ≤ process_range }
        ensures { IfOk result (λ labels. labels ≡ map opening_labels (range_with_len 0 count)) }
    {
        let processes = labels_at_opening(alloc, count)?;
        Ok(Labels {
            processes,
            greatest: Label::new(0, 0).unwrap(),
        })
    }

    /// Both labels of a process.
    #[inline]
    pub fn of(&self, process: u32) -> ProcessLabels
        requires { process < length self.now }
        ensures private { result.private ≡ private_in self.now process }
        ensures public { result.public ≡ public_in self.now process }
    {
        self.processes[process as usize]
    }

    /// Returns the public label of a process.
    #[inline]
    pub fn public(&self, process: u32) -> Label
        requires { process < length self.now }
        ensures { result ≡ public_in self.now process }
    {
        shown_by(&self.processes, process)
    }

    /// Returns whether each public label has a counter below this one. `false` is no proof of the contrary.
    #[inline]
    pub fn are_below(&self, counter: u64) -> bool
        ensures { IsTrue result → (n : ℕ) → (public_in self.now n).counter < counter }
    {
        self.greatest.counter() < counter
    }

    /// Both labels of a process are this one from now on.
    #[inline]
    pub fn relabel(&mut self, process: u32, label: Label)
        requires { process < length self.old }
        ensures { self.new ≡ slice_set self.old process (both label) }
    {
        raise_to(&mut self.greatest, label);
        self.processes[process as usize] = ProcessLabels::both(label);
    }

    /// Gives each of these processes in turn both its new labels, by which it waits for one that shows this label, and adds it to `touched`.
    /// The new counters are in range. `O(waiters)`.
    #[inline]
    pub fn block_each(&mut self, waiters: Waiters<'_>, shown: Label, touched: &mut BitSet)
        requires fit { FitUnder self.old shown waiters }
        requires sized { length touched.old ≡ length self.old }
        ensures labels { self.new ≡ labels_under self.old shown waiters.entry }
        ensures touched { touched.new ≡ added_each touched.old waiters.entry }
    {
        // The greatest label stays in a register, and is written once.
        let mut greatest = self.greatest;
        for process in waiters {
            let label = fresh_in_range(shown_by(&self.processes, process), shown, process);
            raise_to(&mut greatest, label);
            self.processes[process as usize] = ProcessLabels::both(label);
            touched.add(process);
        }
        self.greatest = greatest;
    }

    /// Makes this label, which some process shows, the public label of `process`.
    #[inline]
    pub fn show(&mut self, process: u32, label: Label)
        requires process { process < length self.old }
        requires shown { (n : ℕ) × (label ≡ public_in self.old n) }
        ensures private { map (λ l. l.private) self.new ≡ map (λ l. l.private) self.old }
        ensures public { map (λ l. l.public) self.new ≡ slice_set (map (λ l. l.public) self.old) process label }
        ensures sized { length self.new ≡ length self.old }
    {
        self.processes[process as usize].public = label;
    }
}

impl ProcessLabels {
    /// This label twice.
    #[inline]
    fn both(label: Label) -> ProcessLabels
        ensures { result ≡ both label }
    {
        ProcessLabels {
            private: label,
            public: label,
        }
    }

    /// Returns the labels of a process that was never used.
    fn at_opening(process: u32) -> ProcessLabels
        requires { process < process_range }
        ensures { result ≡ opening_labels process }
    {
        // The word of a label with the counter 0 is its process.
        ProcessLabels::both(Label::of_word(u64::from(process)))
    }
}

/// Returns the public label that is kept for a process.
#[inline]
fn shown_by(processes: &[ProcessLabels], process: u32) -> Label
    requires { process < length processes.now }
    ensures { result ≡ public_in processes.now process }
{
    processes[process as usize].public
}

/// Makes `greatest` this label if that is greater.
#[inline]
fn raise_to(greatest: &mut Label, label: Label)
    ensures kept { greatest.old.counter ≤ greatest.new.counter }
    ensures raised { label.counter ≤ greatest.new.counter }
{
    if *greatest < label {
        *greatest = label;
    }
}

/// Returns the labels of this many processes that were never used.
fn labels_at_opening(alloc: Global, count: u32) -> Result<Vec<ProcessLabels>, AllocError>
    requires { count ≤ process_range }
    ensures { IfOk result (λ v. v.items ≡ map opening_labels (range_with_len 0 count)) }
{
    let mut labels = Vec::with_capacity(alloc, count as usize)?;
    for process in 0..count {
        labels.push_reserved(ProcessLabels::at_opening(process));
    }
    Ok(labels)
}
