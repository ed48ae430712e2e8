//! What a configuration is refused for.
ghost use Rattle.std.specs.Prelude.{◌≡◌};
ghost use Rattle.pashkure.specs.Opening.{config_fault, is_out};

use crate::answer::{BAD_BUCKETS, BAD_NAME_BYTES, BAD_NAMES, BAD_TRANSACTIONS, BAD_VERSION, OK};
use crate::plain::PlainConfig;
use mm_names::NamesConfig;
use mm_settled::Config;

/// The version of the library: `major * 1_000_000 + minor * 1_000 + patch`.
pub const VERSION: u32 = 2_000;

/// Returns the number of the first fault of a configuration, in the order of its members; 0 if it has none.
pub fn fault(config: &PlainConfig) -> u32
    ensures { result ≡ config_fault config.now }
{
    // A program of another patch is served; while the major number is 0, of another minor number not.
    if config.header / 1_000 != VERSION / 1_000 {
        return BAD_VERSION;
    }
    if is_out(config.transactions, Config::MAX_PROCESSES) {
        return BAD_TRANSACTIONS;
    }
    if is_out(config.names, NamesConfig::MAX_NAMES) {
        return BAD_NAMES;
    }
    if is_out(config.name_bytes, NamesConfig::MAX_NAME_BYTES) {
        return BAD_NAME_BYTES;
    }
    if config.buckets != 0 {
        return BAD_BUCKETS;
    }
    OK
}

/// Returns whether a number is not from 1 to this one.
pub(crate) fn is_out(number: u32, most: u32) -> bool
    ensures { result ≡ is_out number most }
{
    number == 0 || number > most
}
