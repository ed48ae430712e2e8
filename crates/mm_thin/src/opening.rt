//! The opening of an office.
ghost use Rattle.std.specs.Prelude.{◌≡◌, ◌↔◌, ◌<◌, ◌≤◌, ◌+◌, Err, IfOk};
ghost use Rattle.mm_thin.specs.Opening.{Opens, AreBucketsOut, AreWorkersOut};

use crate::buckets::Buckets;
use crate::config::{OpenError, ThinConfig};
use crate::office::Office;
use crate::spread::Spread;
use crate::text::MAX_THIN_BYTES;
use crate::worker::{RECORDS, SPARE};
use mm_names::NameHash;
use std::alloc::Global;

impl Office {
    /// Returns an office of this configuration, with no worker: all buckets are free.
    ///
    /// Refused as `Buckets` or else as `Workers` exactly if that number of the configuration is out of its range, and as `Memory` only
    /// if a request for memory was refused. It takes 8 bytes a bucket, and 1,152 a worker and 128 more. While it is opened it takes as
    /// much again.
    pub fn open(alloc: Global, config: ThinConfig) -> Result<Office, OpenError>
        ensures opened { IfOk result (λ office. Opens config office) }
        ensures buckets { (result ≡ Err OpenError.Buckets) ↔ AreBucketsOut config }
        ensures workers { (result ≡ Err OpenError.Workers) ↔ (¬ AreBucketsOut config × AreWorkersOut config) }
    {
        if config.buckets == 0 || config.buckets > ThinConfig::MAX_BUCKETS {
            return Err(OpenError::Buckets);
        }
        if config.workers == 0 || config.workers > ThinConfig::MAX_WORKERS {
            return Err(OpenError::Workers);
        }
        let bytes = (config.name_bytes as usize).min(MAX_THIN_BYTES);
        let texts = config.workers as usize * RECORDS + SPARE;
        let spread = Spread {
            hash: NameHash::new(config.seed),
            buckets: u64::from(config.buckets),
        };
        let (buckets, desk) = Buckets::open(alloc, spread, texts, bytes)?;
        Ok(Office {
            buckets,
            desk,
            workers: 0,
            max_workers: config.workers,
        })
    }
}
