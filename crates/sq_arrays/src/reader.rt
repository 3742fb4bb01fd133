//! Reads the arrays of a file, one after the other, in constant memory.
ghost use Rattle.std.specs.Prelude.{◌≡◌, ◌+◌, ◌*◌, ◌/◌, ◌≤◌, ℕ, List, length, Option, Some, None, IfErr, IsErrOf, Err};
ghost use Rattle.std.specs.Prelude.{OnOk, OnErr, Bool, true, false};
ghost use Rattle.sq_num.specs.Elements.{width};
ghost use Rattle.sq_rect.specs.Extents.{product};
ghost use Rattle.sq_arrays.specs.ArrayText.{start_of, next_values, finished};
ghost use Rattle.sq_arrays.specs.Arrays.{wanted, head_of};
ghost use Rattle.sq_arrays.specs.Window.{IsTold, IsMissing};
ghost use Rattle.sq_arrays.specs.Steps.{Gives};
ghost use Rattle.sq_arrays.specs.Causes.{EndCause, IsThereUnlessFailed};
ghost use Rattle.sq_arrays.specs.Cells.{GivesValues};
ghost use Rattle.sq_arrays.specs.Reader.{left_of, elem_of, is_first, kept_of, rest_at, IsReady};

use crate::head::{end, head};
use crate::values::values;
use crate::window::Window;
use crate::{InputEnd, Want};
use sq_num::{Elem, width};
use sq_port::Files;

/// Reads the arrays of one file, one after the other, through a window of fixed size. Each call is given the same files
/// and the same name.
/// After it has refused the file, or a read failed, it answers the same from then on and reads nothing.
#[derive(Drop)]
pub struct ArrayReader {
    window: Window,
    first: bool,
    elem: Elem,
    left: u128,
    kept: Option<InputEnd>,
}

impl ArrayReader {
    /// A reader at the file's first byte.
    pub fn new() -> ArrayReader
        ensures left { left_of result ≡ 0 }
        ensures kept { kept_of result ≡ None }
        ensures first { is_first result ≡ true }
        ensures ready { (told : _) (name : List ℕ) → IsReady told name result }
        ensures start { (bytes : List ℕ) → rest_at result bytes ≡ start_of bytes }
    {
        ArrayReader {
            window: Window::new(),
            first: true,
            elem: Elem::Byte,
            left: 0,
            kept: None,
        }
    }

    /// The type of the current array's elements.
    pub fn elem(&self) -> Elem
        ensures { result ≡ elem_of self.now }
    {
        self.elem
    }

    /// Reads the head of the next array, which has to be that of `want`.
    pub fn next_head<F: Files>(
        &mut self,
        files: &mut F,
        name: &str,
        want: &Want,
    ) -> Result<(), InputEnd>
        requires ready { IsReady (F.content files.old) name.now self.old }
        requires none { left_of self.old ≡ 0 }
        ensures content { F.content files.new ≡ F.content files.old }
        ensures ready { IsReady (F.content files.new) name.now self.new }

        // After a refusal it is answered again, and nothing is read.
        ensures kept { (end : _) → kept_of self.old ≡ Some end → (result ≡ Err end) × (self.new ≡ self.old)
            × (files.new ≡ files.old) }
        ensures keeps { IfErr result (λ end. kept_of self.new ≡ Some end) }
        ensures stays { OnErr result ((elem_of self.new ≡ elem_of self.old) × (left_of self.new ≡ left_of self.old)
            × (is_first self.new ≡ is_first self.old)) }
        ensures ok { OnOk result ((kept_of self.new ≡ None) × (elem_of self.new ≡ want.now.elem)
            × (left_of self.new ≡ product want.now.extents) × (is_first self.new ≡ false)) }

        // What the text says, where it is told.
        ensures there { kept_of self.old ≡ None → IsThereUnlessFailed (F.content files.old) name.now result }
        ensures gives { kept_of self.old ≡ None → (bytes : List ℕ) → IsTold (F.content files.old) name.now bytes →
            Gives (λ v. (v, rest_at self.new bytes)) result (head_of (is_first self.old) (wanted want.now) (rest_at self.old bytes)) }
        ensures cause { kept_of self.old ≡ None → EndCause (F.faults files.old) (F.faults files.new)
            (F.misses files.old) (F.misses files.new) result }
    {
        let extents = want.extents.as_slice();
        match self.kept {
            Some(end) => Err(end),
            None => match head(
                &mut self.window,
                files,
                name,
                self.first,
                want.name.bytes(),
                want.elem,
                extents,
            ) {
                Ok(()) => {
                    self.first = false;
                    self.elem = want.elem;
                    self.left = want.extents.elements();
                    Ok(())
                }
                Err(end) => {
                    self.kept = Some(end);
                    Err(end)
                }
            },
        }
    }

    /// Reads the next values of the array into `into`, little-endian and one after the other. After a refusal `into`
    /// holds anything.
    pub fn next_values<F: Files>(
        &mut self,
        files: &mut F,
        name: &str,
        into: &mut [u8],
    ) -> Result<(), InputEnd>
        requires ready { IsReady (F.content files.old) name.now self.old }
        requires whole { (length into.old / width (elem_of self.old)) * width (elem_of self.old) ≡ length into.old }
        requires few { length into.old / width (elem_of self.old) ≤ left_of self.old }
        ensures content { F.content files.new ≡ F.content files.old }
        ensures ready { IsReady (F.content files.new) name.now self.new }

        // After a refusal it is answered again, and nothing is read.
        ensures kept { (end : _) → kept_of self.old ≡ Some end → (result ≡ Err end) × (self.new ≡ self.old)
            × (files.new ≡ files.old) }
        ensures keeps { IfErr result (λ end. kept_of self.new ≡ Some end) }
        ensures stays { OnErr result ((elem_of self.new ≡ elem_of self.old) × (left_of self.new ≡ left_of self.old)
            × (is_first self.new ≡ is_first self.old)) }
        ensures ok { OnOk result ((kept_of self.new ≡ None) × (elem_of self.new ≡ elem_of self.old)
            × (is_first self.new ≡ is_first self.old)
            × (left_of self.new + length into.old / width (elem_of self.old) ≡ left_of self.old)) }

        // What the text says, where it is told.
        ensures gives { kept_of self.old ≡ None → (bytes : List ℕ) → IsTold (F.content files.old) name.now bytes →
            GivesValues (elem_of self.old) into.new (rest_at self.new bytes) result
            (next_values (length into.old / width (elem_of self.old)) (elem_of self.old) (rest_at self.old bytes)) }
        ensures missing { kept_of self.old ≡ None → IsErrOf result InputEnd.Absent
            → IsMissing (F.content files.old) name.now }
        ensures cause { kept_of self.old ≡ None → EndCause (F.faults files.old) (F.faults files.new)
            (F.misses files.old) (F.misses files.new) result }
    {
        match self.kept {
            Some(end) => Err(end),
            None => {
                let count = into.len() / width(self.elem);
                match values(&mut self.window, files, name, self.elem, into) {
                    Ok(()) => {
                        self.left -= count as u128;
                        Ok(())
                    }
                    Err(end) => {
                        self.kept = Some(end);
                        Err(end)
                    }
                }
            }
        }
    }

    /// Sees that nothing is left of the file but blanks.
    pub fn finish<F: Files>(&mut self, files: &mut F, name: &str) -> Result<(), InputEnd>
        requires ready { IsReady (F.content files.old) name.now self.old }
        requires none { left_of self.old ≡ 0 }
        ensures content { F.content files.new ≡ F.content files.old }
        ensures ready { IsReady (F.content files.new) name.now self.new }

        // After a refusal it is answered again, and nothing is read.
        ensures kept { (end : _) → kept_of self.old ≡ Some end → (result ≡ Err end) × (self.new ≡ self.old)
            × (files.new ≡ files.old) }
        ensures keeps { IfErr result (λ end. kept_of self.new ≡ Some end) }
        ensures stays { OnErr result ((elem_of self.new ≡ elem_of self.old) × (left_of self.new ≡ left_of self.old)
            × (is_first self.new ≡ is_first self.old)) }
        ensures ok { OnOk result ((kept_of self.new ≡ None) × (elem_of self.new ≡ elem_of self.old)
            × (left_of self.new ≡ 0) × (is_first self.new ≡ is_first self.old)) }

        // What the text says, where it is told.
        ensures there { kept_of self.old ≡ None → IsThereUnlessFailed (F.content files.old) name.now result }
        ensures gives { kept_of self.old ≡ None → (bytes : List ℕ) → IsTold (F.content files.old) name.now bytes
            → Gives (λ v. v) result (finished (rest_at self.old bytes)) }
        ensures cause { kept_of self.old ≡ None → EndCause (F.faults files.old) (F.faults files.new)
            (F.misses files.old) (F.misses files.new) result }
    {
        match self.kept {
            Some(end) => Err(end),
            None => match end(&mut self.window, files, name) {
                Ok(()) => Ok(()),
                Err(end) => {
                    self.kept = Some(end);
                    Err(end)
                }
            },
        }
    }
}
