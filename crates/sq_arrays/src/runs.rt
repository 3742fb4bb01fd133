//! Steps of a window: over bytes of one kind, and to the next bytes of the file.
ghost use Rattle.std.specs.Prelude.{◌≡◌, ◌++◌, ◌≤◌, ◌<◌, ◌+◌, ◌-◌, ℕ, List, length, OnOk, IfOk, IsErrOf, Bool, true};
ghost use Rattle.std.specs.Prelude.{IsOkAnd};
ghost use Rattle.sq_port.specs.Ports.{ReadCause};
ghost use Rattle.sq_arrays.specs.declared.window.Ahead.TheVariants.{Bytes};
ghost use Rattle.sq_arrays.specs.Words.{is_blank, is_in, is_over};
ghost use Rattle.sq_arrays.specs.Window.{IsTold, IsThere, IsMissing, held, left, Stands, Stops, Passed, PassedRun};
ghost use Rattle.sq_arrays.specs.Window.{IsAhead};

use crate::observer::Observer;
use crate::window::{Ahead, LIMIT, ROOM, Spot, Window};
use sq_port::{FileEnd, Files};

fn is_blank_byte(b: u8) -> bool
    ensures { result ≡ is_blank b }
{
    b == b' ' || b == b'\t' || b == b'\r' || b == b'\n'
}

fn is_of(blank: bool, b: u8) -> bool
    ensures { result ≡ is_in blank b }
{
    if blank {
        is_blank_byte(b)
    } else {
        !is_blank_byte(b)
    }
}

/// Passes what the window has of one kind.
pub(crate) fn pass_held<J: Observer>(window: &mut Window, blank: bool, observer: &mut J)
    ensures passed { Passed J.step blank window.old.spot.place window.new.spot.place (held window.old) (held window.new)
        observer.old observer.new }
    ensures at { window.new.spot.at + length (held window.new) ≡ window.old.spot.at + length (held window.old) }
    ensures stops { Stops blank (held window.new) }
    ensures size { length window.new.bytes ≡ 8192 }
{
    let spot = window.spot;
    let mut n = spot.start;
    let mut place = spot.place;
    while n < spot.end && is_of(blank, window.bytes[n]) {
        place = place.after(window.bytes[n]);
        n += 1;
    }
    observer.observe(&window.bytes[spot.start..n]);
    window.spot = Spot {
        start: n,
        end: spot.end,
        at: spot.at + (n - spot.start) as u64,
        place,
    };
}

/// Sees to it that the window has a byte, where the file has one.
pub(crate) fn look<F: Files>(
    window: &mut Window,
    files: &mut F,
    name: &str,
) -> Result<Ahead, FileEnd>
    requires { Stands (F.content files.old) name.now window.old }
    ensures content { F.content files.new ≡ F.content files.old }
    ensures stands { Stands (F.content files.new) name.now window.new }
    ensures at { window.new.spot.at ≡ window.old.spot.at }
    ensures place { window.new.spot.place ≡ window.old.spot.place }
    ensures bytes { IfOk result (λ a. a ≡ Bytes → 0 < length (held window.new)) }
    ensures ahead { (bytes : List ℕ) → IsTold (F.content files.old) name.now bytes
        → IfOk result (λ a. IsAhead a (left window.old bytes) (is_over bytes)) }
    ensures there { OnOk result (IsThere (F.content files.old) name.now) }
    ensures missing { IsErrOf result FileEnd.Absent → IsMissing (F.content files.old) name.now }
    ensures cause { ReadCause (F.faults files.old) (F.faults files.new) (F.misses files.old) (F.misses files.new)
        result }
{
    let spot = window.spot;
    if spot.start < spot.end {
        return Ok(Ahead::Bytes);
    }
    let room = LIMIT - spot.at;
    let size = if room == 0 {
        1
    } else if room < ROOM as u64 {
        room as usize
    } else {
        ROOM
    };
    window.spot = Spot {
        start: 0,
        end: 0,
        at: spot.at,
        place: spot.place,
    };
    match files.read_at(name, spot.at, &mut window.bytes[..size]) {
        Ok(count) => {
            if count == 0 {
                Ok(Ahead::End)
            } else if room == 0 {
                Ok(Ahead::Past)
            } else {
                window.spot = Spot {
                    start: 0,
                    end: count,
                    at: spot.at,
                    place: spot.place,
                };
                Ok(Ahead::Bytes)
            }
        }
        Err(end) => Err(end),
    }
}

/// Passes a run of bytes of one kind, through as many windows as it takes.
pub(crate) fn pass<F: Files, J: Observer>(
    window: &mut Window,
    files: &mut F,
    name: &str,
    blank: bool,
    observer: &mut J,
) -> Result<Ahead, FileEnd>
    requires { Stands (F.content files.old) name.now window.old }
    ensures content { F.content files.new ≡ F.content files.old }
    ensures stands { Stands (F.content files.new) name.now window.new }
    ensures there { OnOk result (IsThere (F.content files.old) name.now) }
    ensures missing { IsErrOf result FileEnd.Absent → IsMissing (F.content files.old) name.now }
    ensures bytes { IfOk result (λ a. a ≡ Bytes → 0 < length (held window.new)) }
    ensures passed { (bytes : List ℕ) → IsTold (F.content files.old) name.now bytes → IfOk result (λ a.
        PassedRun J.step blank window.old.spot.place window.new.spot.place (left window.old bytes) (left window.new bytes) observer.old observer.new a (is_over bytes)) }
    ensures cause { ReadCause (F.faults files.old) (F.faults files.new) (F.misses files.old) (F.misses files.new)
        result }
{
    'windows: loop {
        match look(window, files, name) {
            Ok(Ahead::Bytes) => {}
            Ok(Ahead::End) => return Ok(Ahead::End),
            Ok(Ahead::Past) => return Ok(Ahead::Past),
            Err(end) => return Err(end),
        }
        pass_held(window, blank, observer);
        if window.spot.start < window.spot.end {
            return Ok(Ahead::Bytes);
        }
    }
}
