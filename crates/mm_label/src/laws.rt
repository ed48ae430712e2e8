//! Laws of labels, each proved as the contract of a function that does nothing.
ghost use Rattle.mm_label.specs.Label.{WordsKeepTheOrder, FreshIsAbove};

/// Words compare as the labels that they keep.
pub fn words_keep_the_order()
    ensures { WordsKeepTheOrder }
{}

/// A fresh label is above both labels that it is made of, and is the process's own.
pub fn fresh_is_above()
    ensures { FreshIsAbove }
{}
