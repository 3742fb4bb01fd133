//! The parts of an array's text: a word of the head, a value.
ghost use Rattle.std.specs.Prelude.{◌≡◌, ℕ, List, length};
ghost use Rattle.sq_arrays.specs.Window.{IsTold, Stands};
ghost use Rattle.sq_arrays.specs.Steps.{Gives, rest_of};
ghost use Rattle.sq_arrays.specs.Causes.{EndCause, IsThereUnlessFailed};
ghost use Rattle.sq_arrays.specs.ArrayText.{next_value, next_same, next_array};

use crate::exact::ExactText;
use crate::number::Number;
use crate::window::Window;
use crate::word::word;
use crate::{InputCode, InputEnd};
use sq_num::Elem;
use sq_port::Files;

/// Reads the next value.
pub(crate) fn expect_value<F: Files>(
    window: &mut Window,
    files: &mut F,
    name: &str,
    elem: Elem,
) -> Result<i64, InputEnd>
    requires { Stands (F.content files.old) name.now window.old }
    ensures content { F.content files.new ≡ F.content files.old }
    ensures stands { Stands (F.content files.new) name.now window.new }
    ensures there { IsThereUnlessFailed (F.content files.old) name.now result }
    ensures gives { (bytes : List ℕ) → IsTold (F.content files.old) name.now bytes →
        Gives (λ v. (v, rest_of window.new bytes)) result (next_value elem (rest_of window.old bytes)) }
    ensures cause { EndCause (F.faults files.old) (F.faults files.new) (F.misses files.old) (F.misses files.new)
        result }
{
    let mut number = Number::new();
    match word(window, files, name, &mut number) {
        Ok(place) => match number.value(elem) {
            Ok(v) => Ok(v),
            Err(code) => Err(InputEnd::Refused { code, place }),
        },
        Err(end) => Err(end),
    }
}

/// Reads the next word, which has to be this text.
pub(crate) fn expect_text<F: Files>(
    window: &mut Window,
    files: &mut F,
    name: &str,
    text: &[u8],
    code: InputCode,
) -> Result<(), InputEnd>
    requires { Stands (F.content files.old) name.now window.old }
    ensures content { F.content files.new ≡ F.content files.old }
    ensures stands { Stands (F.content files.new) name.now window.new }
    ensures there { IsThereUnlessFailed (F.content files.old) name.now result }
    ensures gives { (bytes : List ℕ) → IsTold (F.content files.old) name.now bytes →
        Gives (λ v. (v, rest_of window.new bytes)) result (next_same text.now code (rest_of window.old bytes)) }
    ensures cause { EndCause (F.faults files.old) (F.faults files.new) (F.misses files.old) (F.misses files.new)
        result }
{
    let mut observer = ExactText { text, matched: 0 };
    match word(window, files, name, &mut observer) {
        Ok(place) => match observer.verdict(code) {
            Ok(()) => Ok(()),
            Err(code) => Err(InputEnd::Refused { code, place }),
        },
        Err(end) => Err(end),
    }
}

/// Reads the word `array`.
pub(crate) fn expect_array<F: Files>(
    window: &mut Window,
    files: &mut F,
    name: &str,
    first: bool,
) -> Result<(), InputEnd>
    requires { Stands (F.content files.old) name.now window.old }
    ensures content { F.content files.new ≡ F.content files.old }
    ensures stands { Stands (F.content files.new) name.now window.new }
    ensures there { IsThereUnlessFailed (F.content files.old) name.now result }
    ensures gives { (bytes : List ℕ) → IsTold (F.content files.old) name.now bytes →
        Gives (λ v. (v, rest_of window.new bytes)) result (next_array first (rest_of window.old bytes)) }
    ensures cause { EndCause (F.faults files.old) (F.faults files.new) (F.misses files.old) (F.misses files.new)
        result }
{
    let mut number = Number::new();
    match word(window, files, name, &mut number) {
        Ok(place) => match number.array(first) {
            Ok(()) => Ok(()),
            Err(code) => Err(InputEnd::Refused { code, place }),
        },
        Err(end) => Err(end),
    }
}
