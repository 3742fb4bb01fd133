//! A window of fixed size on a file, with its position and place.
ghost use Rattle.std.specs.Prelude.{◌≡◌, ◌≤◌, ◌+◌, ◌-◌};

use sq_text::Place;
use sq_text::limits::DATA_BYTES;

/// How many bytes of a file count.
pub(crate) const LIMIT: u64 = DATA_BYTES as u64;

/// How many bytes of a file are held at a time. The reader lies on the stack, which may be 64 KiB small, and is moved
/// there.
pub(crate) const ROOM: usize = 8192;

/// What stands next in a file.
#[derive(Clone, Copy, PartialEq, Eq)]
pub(crate) enum Ahead {
    Bytes,
    End,
    Past,
}

/// Which part of the room is filled, and where in the file the first of these bytes stands.
#[derive(Clone, Copy)]
pub(crate) struct Spot {
    pub(crate) start: usize,
    pub(crate) end: usize,
    pub(crate) at: u64,
    pub(crate) place: Place,
    ghost inside: { start ≤ end },
    ghost room: { end ≤ 8192 },
    ghost limit: { at + (end - start) ≤ 268435456 },
    ghost line: { place.line ≤ at + 1 },
    ghost col: { place.col ≤ at + 1 },
}

#[derive(Drop)]
pub(crate) struct Window {
    pub(crate) bytes: [u8; ROOM],
    pub(crate) spot: Spot,
}

impl Window {
    pub(crate) fn new() -> Window
        ensures empty { result.spot.end ≡ result.spot.start }
        ensures at { result.spot.at ≡ 0 }
        ensures place { result.spot.place ≡ record { line = 1; col = 1 } }
    {
        let spot = Spot {
            start: 0,
            end: 0,
            at: 0,
            place: Place { line: 1, col: 1 },
        };
        Window {
            bytes: [0; ROOM],
            spot,
        }
    }
}
