//! A sink that adds up the numbers of the text that it is given.
ghost use Rattle.std.specs.Prelude.{◌≡◌, ◌++◌, ◌∷◌, []};
ghost use Rattle.std.specs.List.{fold};
ghost use Rattle.sq_adder.specs.Sums.{added, nothing_added, bytes_told, text_sum};

use crate::adding::Adding;
use http_server::Log;
use sq_port::{Failed, Sink};

/// Behind the first line of the text. No put fails, and nothing of the text is kept but for proofs.
#[derive(Drop)]
pub struct SumSink {
    so_far: Adding,
    told: Log<u8, ()>,
    ghost tied: { so_far ≡ fold added nothing_added (bytes_told told.items) },
}

impl SumSink {
    ghost use Rattle.sq_adder.specs.Told.{sum_written};

    /// With no text yet.
    pub fn new() -> SumSink
        ensures { sum_written result ≡ [] }
    {
        SumSink {
            so_far: Adding::new(),
            told: Log::new(),
        }
    }

    /// The sum of the text's numbers so far.
    pub fn sum(&self) -> i64
        ensures { result ≡ text_sum (sum_written self.now) }
    {
        self.so_far.total()
    }

    // One byte more.
    fn add(&mut self, b: u8)
        ensures { sum_written self.new ≡ sum_written self.old ++ b ∷ [] }
    {
        let so_far = self.so_far.with(b);
        let told = self.told.and(&b, &());
        *self = SumSink { so_far, told };
    }
}

impl Sink for SumSink {
    ghost use Rattle.std.specs.Prelude.{◌≡◌, ◌≤◌, Some, Ok, length};
    ghost use Rattle.sq_adder.specs.Told.{sum_written};

    ghost written = { λ s. Some (sum_written s) };

    ghost faults = { λ s. 0 };

    fn put(&mut self, piece: &[u8]) -> Result<usize, Failed> {
        for b in piece {
            self.add(*b);
        }
        Ok(piece.len())
    }
}
