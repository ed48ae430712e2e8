//! The transactions that clients make after their first ones.
ghost use Rattle.std.specs.Prelude.{◌≡◌, ◌+◌, ◌<◌, OnOk};
ghost use Rattle.mm_workload.specs.Shapes.{shape_of};
ghost use Rattle.mm_workload.specs.Storm.{Stream, after, client_of, draws, stream_of};
ghost use Rattle.mm_workload.specs.Work.{Origin, no_further};

use crate::shape::StormShape;
use crate::step::WorkStep;
use crate::storms::draw;
use rand_pcg::Lcg64Xsh32;
use std::alloc::AllocError;
use std::marker::Model;

/// From what the transactions that follow the first one of each client are drawn.
#[derive(Drop)]
pub(crate) struct StreamOrigin {
    seed: u64,
    shape: StormShape,
}

impl Model for StreamOrigin {
    ghost Value = { Origin };

    ghost view = { λ further. record { seed = further.seed; shape = shape_of further.shape } };
}

impl StreamOrigin {
    pub(crate) fn new(seed: u64, shape: StormShape) -> StreamOrigin
        ensures { result ≡ record { seed = seed; shape = shape_of shape } }
    {
        StreamOrigin { seed, shape }
    }

    /// No transaction follows the first one.
    pub(crate) fn none() -> StreamOrigin
        ensures { result ≡ no_further }
    {
        StreamOrigin {
            seed: 0,
            shape: StormShape::USUAL,
        }
    }

    /// Returns what the client of this number makes.
    pub(crate) fn of_client(&self, client: u64) -> TransactionStream
        ensures { result ≡ stream_of self.now client }
    {
        TransactionStream {
            shape: self.shape,
            words: Lcg64Xsh32::new(self.seed, client),
        }
    }
}

/// The transactions that one client makes after its first one, which are drawn one by one.
#[derive(Drop)]
pub struct TransactionStream {
    shape: StormShape,
    words: Lcg64Xsh32,
}

impl Model for TransactionStream {
    ghost Value = { Stream };

    ghost view = { λ stream. record { shape = shape_of stream.shape; words = stream.words } };
}

impl TransactionStream {
    /// Returns how many there are: 0 to 999,999. Drawing one leaves it as it is. Constant time.
    pub fn count(&self) -> u32
        ensures value { result + 1 ≡ self.now.shape.transactions }
        ensures range { result < 1000000 }
    {
        self.shape.transactions - 1
    }

    /// Makes room in `steps` for those of each that is drawn. Takes memory if there is one.
    ///
    /// Refused only if a request for memory was refused.
    pub fn make_room(&self, steps: &mut Vec<WorkStep>) -> Result<(), AllocError>
        ensures { steps.new.items ≡ steps.old.items }
    {
        if self.count() == 0 {
            return Ok(());
        }
        steps.reserve(self.shape.acquires as usize)
    }

    /// Draws the next one: `steps` are its steps then. `O(acquires)`, and the square of its resources. Takes memory if `steps` have no
    /// room for them (`make_room`).
    ///
    /// Refused only if a request for memory was refused.
    pub fn draw(&mut self, steps: &mut Vec<WorkStep>) -> Result<(), AllocError>
        ensures steps { OnOk result (steps.new.items ≡ client_of self.old.shape self.old.words) }
        ensures shape { self.new.shape ≡ self.old.shape }
        ensures words { OnOk result (self.new.words ≡ after (1 + draws self.old.shape self.old.words) self.old.words) }
    {
        steps.clear();
        draw(&self.shape, &mut self.words, steps)
    }
}
