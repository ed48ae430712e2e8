//! The buckets that all parts of one opening share.
ghost use Rattle.std.specs.Prelude.{◌≡◌, ◌<◌, ◌≤◌, IfOk, length};
ghost use Rattle.mm_thin.specs.Parts.{bucket_of, IsOpened};

use crate::desk_part::DeskPart;
use crate::rule::{Steps, Words};
use crate::spread::Spread;
use crate::text::Text;
use atomic_table::Table;
use std::alloc::{AllocError, Global};
use std::marker::Model;
use std::sync::Arc;

/// An owner of the words and the texts, and to which bucket a name belongs. A contract sees an `Opening`.
#[derive(Drop)]
pub(crate) struct Buckets {
    words: Arc<Words, Global>,
    spread: Spread,
    /// How many bytes a name may have that is locked here.
    pub(crate) bytes: usize,
}

impl Model for Buckets {
    ghost use Rattle.std.specs.Arc.{arc_value};
    ghost use Rattle.mm_thin.specs.Parts.{Opening, AreBuckets};

    ghost Value = { Opening };

    ghost view = { λ b. record { table = (arc_value b.words).shared.table_id; spread = b.spread; bytes = b.bytes } };

    ghost invariant = { λ b. AreBuckets (arc_value b.words).shared.table_id (arc_value b.words).shared.key b.spread b.bytes };
}

impl Buckets {
    /// This many buckets, all free, this many texts, and the part of an office that knows of nothing.
    pub(crate) fn open(
        alloc: Global,
        spread: Spread,
        texts: usize,
        bytes: usize,
    ) -> Result<(Buckets, DeskPart), AllocError>
        requires small { bytes ≤ 63 }
        ensures { IfOk result (λ made. IsOpened spread texts bytes made.0 made.1) }
    {
        let count = spread.buckets();
        let zeros = vec![in alloc; 0u64; count]?;
        let blanks = blank_texts(alloc, texts)?;
        let Ok((words, seat)) = Table::new(alloc, zeros.as_slice(), blanks, &(count as u64)) else {
            return Err(AllocError);
        };
        let words = Arc::new(alloc, words)?;
        let buckets = Buckets {
            words,
            spread,
            bytes,
        };
        let desk = DeskPart {
            badge: seat.into_badge(),
            records: 0,
        };
        Ok((buckets, desk))
    }

    /// Another owner of the same. It takes no memory.
    pub(crate) fn share(&self) -> Result<Buckets, AllocError>
        ensures { IfOk result (λ other. other ≡ self.now) }
    {
        Ok(Buckets {
            words: Arc::try_clone(&self.words)?,
            spread: self.spread,
            bytes: self.bytes,
        })
    }

    /// Returns the words as threads see them.
    #[inline(always)]
    pub(crate) fn steps(&self) -> &Steps
        ensures table { result.now.table_id ≡ self.now.table }
        ensures key { result.now.key ≡ self.now.table.words }
        ensures some { 0 < self.now.table.words }
    {
        &self.words.shared
    }

    /// Returns the bucket of a name.
    #[inline(always)]
    pub(crate) fn of(&self, name: &[u8]) -> usize
        ensures bucket { result ≡ bucket_of self.now name.now }
        ensures low { result < self.now.table.words }
        ensures bytes { self.now.bytes ≤ 63 }
    {
        self.spread.of(name)
    }

    /// To which bucket a name belongs.
    pub(crate) fn spread(&self) -> Spread
        ensures spread { result ≡ self.now.spread }
        ensures words { result.buckets ≡ self.now.table.words }
    {
        self.spread
    }
}

/// This many texts of no bytes.
fn blank_texts(alloc: Global, count: usize) -> Result<Vec<Text>, AllocError>
    ensures { IfOk result (λ texts. length texts.items ≡ count) }
{
    let mut texts = Vec::with_capacity(alloc, count)?;
    for _ in 0..count {
        texts.push_reserved(Text::none());
    }
    Ok(texts)
}
