//! A holder, and the word that keeps it: 0 for none, and else the number of the process and one.
ghost use Rattle.std.specs.Prelude.{◌≡◌, ◌<◌, ◌^◌};
ghost use Rattle.mm_board.specs.Views.{holder_of};

/// A process that was seen to have a holder.
#[derive(Clone, Copy, Debug, PartialEq, Eq)]
pub struct Waiter {
    pub process: u32,
    pub holder: u32,
}

/// Returns the word that keeps this holder.
#[inline]
pub(crate) fn word_of(holder: Option<u32>) -> u64
    ensures { holder_of result ≡ holder }
{
    match holder {
        None => 0,
        Some(process) => u64::from(process) + 1,
    }
}

/// Returns the holder that this word keeps.
#[inline]
pub(crate) fn of_word(word: u64) -> Option<u32>
    requires { word < 2 ^ 32 }
    ensures { result ≡ holder_of word }
{
    if word == 0 {
        return None;
    }
    Some((word - 1) as u32)
}
