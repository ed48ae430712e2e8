//! The labels of a process: what they are, whether the limit allows new ones, and how they change.
ghost use Rattle.std.specs.Prelude.{◌≡◌, ◌<◌, IsTrue, SomeIff, slice_set};
ghost use Rattle.mm_rules.specs.TableState.{public_of};
ghost use Rattle.mm_rules.specs.Change.{block_fits, label_against};
ghost use Rattle.mm_table.specs.private.LabelLimit.{labelled, AllLabelsFit, IsShown};

use super::Records;
use mm_label::{Label, fresh};

impl Records {
    /// Returns the public label of a process.
    pub fn public(&self, process: u32) -> Label
        requires { process < self.now.config.processes }
        ensures { result ≡ public_of self.now process }
    {
        self.labels.public(process)
    }

    /// Returns whether the limit allows each label that one block can make. If it does not, some may still fit.
    pub(super) fn all_labels_fit(&self) -> bool
        ensures { IsTrue result → AllLabelsFit self.now }
    {
        self.labels.are_below(self.config.label_limit)
    }

    /// Returns the label that `process` gets by waiting for `holder`; `None` past the label limit.
    pub(super) fn label_against(&self, process: u32, holder: u32) -> Option<Label>
        requires process { process < self.now.config.processes }
        requires holder { holder < self.now.config.processes }
        ensures { SomeIff result (IsTrue (block_fits self.now process holder)) (label_against self.now process holder) }
    {
        fresh(
            self.public(process),
            self.public(holder),
            process,
            self.config.label_limit,
        )
    }

    /// Both labels of a process are this one from now on.
    pub(super) fn relabel(&mut self, process: u32, label: Label)
        requires { process < self.old.config.processes }
        ensures { self.new ≡ labelled self.old process label }
    {
        self.labels.relabel(process, label);
    }

    /// Makes this label, which some process shows, the public label of `process`.
    pub(super) fn show(&mut self, process: u32, label: Label)
        requires process { process < self.old.config.processes }
        requires shown { IsShown self.old label }
        ensures { self.new ≡ record self.old { public = slice_set self.old.public process label } }
    {
        self.labels.show(process, label);
    }
}
