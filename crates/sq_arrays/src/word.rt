//! The next word of a file, which an observer sees in pieces.
ghost use Rattle.std.specs.Prelude.{◌≡◌, ℕ, List, OnOk, Result};
ghost use Rattle.sq_port.specs.Ports.{Rose};
ghost use Rattle.sq_arrays.specs.Window.{IsTold, IsThere, Stands};
ghost use Rattle.sq_arrays.specs.Steps.{GivesWord, rest_of};
ghost use Rattle.sq_arrays.specs.Causes.{EndCause, IsThereUnlessFailed};

use crate::observer::{Nothing, Observer};
use crate::runs::pass;
use crate::window::{Ahead, Window};
use crate::{InputCode, InputEnd};
use sq_port::{FileEnd, Files};
use sq_text::Place;

/// Reads the next word, and answers its place.
pub(crate) fn word<F: Files, J: Observer>(
    window: &mut Window,
    files: &mut F,
    name: &str,
    observer: &mut J,
) -> Result<Place, InputEnd>
    requires { Stands (F.content files.old) name.now window.old }
    ensures content { F.content files.new ≡ F.content files.old }
    ensures stands { Stands (F.content files.new) name.now window.new }
    ensures there { IsThereUnlessFailed (F.content files.old) name.now result }
    ensures gives { (bytes : List ℕ) → IsTold (F.content files.old) name.now bytes →
        GivesWord J.step observer.old observer.new result (rest_of window.old bytes) (rest_of window.new bytes) }
    ensures cause { EndCause (F.faults files.old) (F.faults files.new) (F.misses files.old) (F.misses files.new)
        result }
{
    match pass(window, files, name, true, &mut Nothing) {
        Ok(Ahead::Bytes) => {}
        Ok(Ahead::End) => return Err(InputEnd::Refused {
            code: InputCode::Short,
            place: window.spot.place,
        }),
        Ok(Ahead::Past) => return Err(InputEnd::Refused {
            code: InputCode::LimitFile,
            place: window.spot.place,
        }),
        Err(FileEnd::Failed) => return Err(InputEnd::Failed),
        Err(FileEnd::Absent) => return Err(InputEnd::Absent),
    }
    let place = window.spot.place;
    match pass(window, files, name, false, observer) {
        Ok(Ahead::Bytes) => Ok(place),
        Ok(Ahead::End) => Ok(place),
        Ok(Ahead::Past) => Err(InputEnd::Refused {
            code: InputCode::LimitFile,
            place: window.spot.place,
        }),
        Err(FileEnd::Failed) => Err(InputEnd::Failed),
        Err(FileEnd::Absent) => Err(InputEnd::Absent),
    }
}
