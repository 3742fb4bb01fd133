//! Whether forms can be evaluated: their arrays stand in line, and each call fits the form that it reaches.

ghost use Rattle.std.specs.Prelude.{◌≡◌, ◌+◌, ◌<◌, ◌&&◌, ℕ, List, true, map, length, slice_get, option_map, IsTrue};
ghost use Rattle.std.specs.Option.{option_copied};
ghost use Rattle.sq_blocks.specs.Arguments.{lengths};
ghost use Rattle.sq_leaf.specs.Views.{shape_of};
ghost use Rattle.sq_flat.specs.Memory.{total};
ghost use Rattle.sq_flat.specs.Ready.{AreForms, rows_in, rows_of};
ghost use Rattle.sq_flat.specs.Checked as spec;

use crate::form::FormCode;
use sq_blocks::Argument;
use sq_leaf::are_in_line;
use sq_num::width;
use sq_rect::View;
use sq_spec::{Body, CallInstance, Statement};
use sq_text::Span;
use sqlite_items::at;

// A whole array from this byte on, with elements, and with a size that has 32 bits.
fn is_at(view: &View, byte: u64) -> bool
    ensures { result ≡ spec.is_at byte view.now }
{
    let elements = view.extents.elements();
    if u64::from(view.at) != byte || elements == 0 || elements >= 0x1_0000_0000 {
        return false;
    }
    if width(view.elem) as u64 * elements as u64 >= 0x1_0000_0000 {
        return false;
    }
    view.strides.as_slice() == view.extents.row_major().as_slice()
}

/// Whether these are whole arrays one behind the other.
pub fn are_lined(views: &[View]) -> bool
    ensures { result ≡ spec.are_lined 0 views.now }
{
    let mut end = 0u64;
    for view in views {
        if !is_at(view, end) {
            return false;
        }
        end = u64::from(view.at) + width(view.elem) as u64 * view.extents.elements() as u64;
    }
    true
}

fn are_inside(spans: &[Span], extents: &[u32]) -> bool
    ensures { result ≡ spec.are_inside spans.now extents.now }
{
    match spans {
        [] => match extents {
            [] => true,
            [_, ..] => false,
        },
        [s, spans @ ..] => match extents {
            [] => false,
            [n, extents @ ..] => s.lo < s.hi && s.hi <= *n && are_inside(spans, extents),
        },
    }
}

fn have_lengths(extents: &[u32], spans: &[Span]) -> bool
    ensures { result ≡ spec.same_numbers extents.now (lengths spans.now) }
{
    match spans {
        [] => match extents {
            [] => true,
            [_, ..] => false,
        },
        [s, spans @ ..] => match extents {
            [] => false,
            [n, extents @ ..] => *n == s.hi.saturating_sub(s.lo) && have_lengths(extents, spans),
        },
    }
}

fn is_block(a: &Argument, of: Option<&View>, to: Option<&View>) -> bool
    ensures { result ≡ spec.is_block a.now (option_copied of.entry) (option_copied to.entry) }
{
    let Some(of) = of else {
        return false;
    };
    let Some(to) = to else {
        return false;
    };
    let spans = a.rect.as_slice();
    are_inside(spans, of.extents.as_slice())
        && width(to.elem) == width(of.elem)
        && have_lengths(to.extents.as_slice(), spans)
}

fn are_blocks(args: &[Argument], outer: &[View], inner: &[View]) -> bool
    ensures { result ≡ spec.are_blocks outer.now inner.now 0 args.now }
{
    for (k, a) in args.iter().enumerate() {
        if !is_block(a, at(outer, a.array as usize), at(inner, k)) {
            return false;
        }
    }
    true
}

/// Whether there is such a form, with parameters that fit the arguments.
pub fn reaches(views: &[View], r: &CallInstance, f: Option<&FormCode>) -> bool
    ensures { result ≡ spec.reaches views.now r.now (option_copied f.entry) }
{
    let Some(f) = f else {
        return false;
    };
    let args = r.args.as_slice();
    args.len() < 0x1_0000_0000 && are_blocks(args, views, f.views.as_slice())
}

fn rows_fit(forms: &[FormCode], views: &[View], rows: &[CallInstance]) -> bool
    ensures { result ≡ spec.rows_fit forms.now views.now rows.now }
{
    for r in rows {
        if !reaches(views, r, at(forms, r.form)) {
            return false;
        }
    }
    true
}

#[cycle(fits)]
fn statement_fits(s: &Statement, forms: &[FormCode], views: &[View]) -> bool
    ensures { result ≡ spec.rows_fit forms.now views.now (rows_of s.now) }
{
    match s {
        Statement::Call {
            lower: _,
            instances,
        } => rows_fit(forms, views, instances.as_slice()),
        Statement::Map {
            place: _,
            kind: _,
            counts: _,
            starts: _,
            body,
        } => statements_fit(body.as_slice(), forms, views),
    }
}

#[cycle(fits)]
fn statements_fit(list: &[Statement], forms: &[FormCode], views: &[View]) -> bool
    ensures { result ≡ spec.rows_fit forms.now views.now (rows_in list.now) }
{
    for s in list {
        if !statement_fits(s, forms, views) {
            return false;
        }
    }
    true
}

/// The size of the memory of these arrays.
pub fn total(views: &[View]) -> usize
    requires { spec.are_lined 0 views.now ≡ true }
    ensures { result ≡ total (map shape_of views.now) }
{
    let mut end = 0usize;
    for view in views {
        end = view.at as usize + width(view.elem) * view.extents.elements() as usize;
    }
    end
}

fn is_form(forms: &[FormCode], f: &FormCode) -> bool
    ensures { result ≡ spec.is_form forms.now f.now }
{
    let views = f.views.as_slice();
    if !are_lined(views) {
        return false;
    }
    match &f.body {
        Body::Leaf(_) => are_in_line(total(views), &f.views),
        Body::Inner(list) => statements_fit(list.as_slice(), forms, views),
    }
}

/// Whether each form's arrays stand in line, and each call fits the form that it reaches.
#[tactic(auto, using(crate::proofs::Checks::forms_of))]
pub fn are_ready(forms: &[FormCode]) -> bool
    ensures { IsTrue result → AreForms forms.now }
{
    each_is_form(forms)
}

fn each_is_form(forms: &[FormCode]) -> bool
    ensures { result ≡ spec.are_forms forms.now forms.now }
{
    for f in forms {
        if !is_form(forms, f) {
            return false;
        }
    }
    true
}
