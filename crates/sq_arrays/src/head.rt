//! The head of an array, and the file's end.
ghost use Rattle.std.specs.Prelude.{◌≡◌, ◌+◌, ◌≤◌, ◌++◌, ℕ, List, length, take, ◌∷◌, [], decimal};
ghost use Rattle.sq_arrays.specs.Window.{IsTold, Stands};
ghost use Rattle.sq_arrays.specs.Steps.{Gives, rest_of};
ghost use Rattle.sq_arrays.specs.Causes.{EndCause, IsThereUnlessFailed};
ghost use Rattle.sq_arrays.specs.ArrayText.{next_head, finished};
ghost use Rattle.sq_arrays.specs.Heads.{elem_word, shape_text};

use crate::expect::{expect_array, expect_text};
use crate::observer::Nothing;
use crate::runs::pass;
use crate::window::{Ahead, Window};
use crate::{InputCode, InputEnd};
use itoa::Buffer;
use sq_num::Elem;
use sq_port::{FileEnd, Files};

pub(crate) const SHAPE: usize = 36;

pub(crate) fn word_of(elem: Elem) -> &'static [u8]
    ensures { result.now ≡ elem_word elem }
{
    match elem {
        Elem::Byte => b"byte",
        Elem::Int => b"int",
        Elem::Long => b"long",
    }
}

pub(crate) fn append(line: &mut [u8], at: usize, piece: &[u8]) -> usize
    requires { at + length piece.now ≤ length line.old }
    ensures at { result ≡ at + length piece.now }
    ensures text { take result line.new ≡ take at line.old ++ piece.now }
{
    let end = at + piece.len();
    line[at..end].copy_from_slice(piece);
    end
}

fn append_extent(line: &mut [u8], at: usize, extent: u32) -> usize
    requires { at + 12 ≤ length line.old }
    ensures at { result ≤ at + 12 }
    ensures text { take result line.new ≡ take at line.old ++ (91 ∷ decimal extent ++ 93 ∷ []) }
{
    let mut buffer = Buffer::new();
    let opened = append(line, at, b"[");
    let digits = append(line, opened, buffer.format(extent).as_bytes());
    append(line, digits, b"]")
}

pub(crate) fn put_shape(line: &mut [u8], extents: &[u32]) -> usize
    requires few { length extents.now ≤ 3 }
    requires room { length line.old ≡ 36 }
    ensures end { result ≤ length line.new }
    ensures text { take result line.new ≡ shape_text extents.now }
{
    let mut at = 0;
    for extent in extents {
        at = append_extent(line, at, *extent);
    }
    at
}

/// Reads the four words of a head.
pub(crate) fn head<F: Files>(
    window: &mut Window,
    files: &mut F,
    name: &str,
    first: bool,
    wanted: &[u8],
    elem: Elem,
    extents: &[u32],
) -> Result<(), InputEnd>
    requires stands { Stands (F.content files.old) name.now window.old }
    requires few { length extents.now ≤ 3 }
    ensures content { F.content files.new ≡ F.content files.old }
    ensures stands { Stands (F.content files.new) name.now window.new }
    ensures there { IsThereUnlessFailed (F.content files.old) name.now result }
    ensures gives { (bytes : List ℕ) → IsTold (F.content files.old) name.now bytes →
        Gives (λ v. (v, rest_of window.new bytes)) result (next_head first wanted.now (elem_word elem) (shape_text extents.now) (rest_of window.old bytes)) }
    ensures cause { EndCause (F.faults files.old) (F.faults files.new) (F.misses files.old) (F.misses files.new)
        result }
{
    let mut line = [0u8; SHAPE];
    let end = put_shape(&mut line, extents);
    match expect_array(window, files, name, first) {
        Ok(()) => {}
        Err(end) => return Err(end),
    }
    match expect_text(window, files, name, wanted, InputCode::Name) {
        Ok(()) => {}
        Err(end) => return Err(end),
    }
    match expect_text(window, files, name, word_of(elem), InputCode::Shape) {
        Ok(()) => {}
        Err(end) => return Err(end),
    }
    match expect_text(window, files, name, &line[..end], InputCode::Shape) {
        Ok(()) => Ok(()),
        Err(end) => Err(end),
    }
}

/// Sees that only blanks are left.
pub(crate) fn end<F: Files>(window: &mut Window, files: &mut F, name: &str) -> Result<(), InputEnd>
    requires { Stands (F.content files.old) name.now window.old }
    ensures content { F.content files.new ≡ F.content files.old }
    ensures stands { Stands (F.content files.new) name.now window.new }
    ensures there { IsThereUnlessFailed (F.content files.old) name.now result }
    ensures gives { (bytes : List ℕ) → IsTold (F.content files.old) name.now bytes
        → Gives (λ v. v) result (finished (rest_of window.old bytes)) }
    ensures cause { EndCause (F.faults files.old) (F.faults files.new) (F.misses files.old) (F.misses files.new)
        result }
{
    match pass(window, files, name, true, &mut Nothing) {
        Ok(Ahead::Bytes) => Err(InputEnd::Refused {
            code: InputCode::Extra,
            place: window.spot.place,
        }),
        Ok(Ahead::End) => Ok(()),
        Ok(Ahead::Past) => Err(InputEnd::Refused {
            code: InputCode::LimitFile,
            place: window.spot.place,
        }),
        Err(FileEnd::Failed) => Err(InputEnd::Failed),
        Err(FileEnd::Absent) => Err(InputEnd::Absent),
    }
}
