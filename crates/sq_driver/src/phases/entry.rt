//! The arrays of the entry: what the data gives for them, and what is written of them.
ghost use Rattle.std.specs.Prelude.{◌≡◌, ◌++◌, ◌*◌, ◌≤◌, ℕ, List, [], ◌∷◌, true, Ok, map, length, slice_get, IfOk};
ghost use Rattle.std.specs.Prelude.{OnOk};
ghost use Rattle.sq_num.specs.Elements.{width};
ghost use Rattle.sq_rect.specs.Extents.{product};
ghost use Rattle.sq_arrays.specs.Arrays.{wanted};
ghost use Rattle.sq_arrays.specs.Targets.{HasRoom, name_at};
ghost use Rattle.sq_port.specs.Ports.{Wrote};
ghost use Rattle.sq_ast.specs.Modes as modes;
ghost use Rattle.sq_forms.specs.Resolving.{entry_extents};
ghost use Rattle.sq_spec.specs.Works.{param_shapes};
ghost use Rattle.sq_flat.specs.Held.{AreWhole, entry_shapes, extents_in};
ghost use Rattle.sq_driver.specs.Data.{args_for, code_for};
ghost use Rattle.sq_driver.specs.Ends.{ending, FileCauses};
ghost use Rattle.sq_driver.specs.Entry.{params_of, wants_of};
ghost use Rattle.sq_driver.specs.Outputs.{stored_output, stored_text, stored_texts};
ghost use Rattle.sq_driver.specs.Picking.{read_want, picked, number_from, KeepsOthers, keeps_itself, keeps_on};
ghost use Rattle.sq_driver.specs.Picking.{ReadsData, ReadsGiven};
ghost use Rattle.sq_driver.specs.Steps.{WroteOut};

use crate::outside::end::End;
use sq_arrays::laws::values_are_those_of_their_array;
use sq_arrays::{ArrayTarget, ArraysEnd, InputCode, InputEnd, Want, read_arrays, write_array};
use sq_ast::{Mode, Param};
use sq_flat::Arrays;
use sq_port::{Failed, Files, Sink};
use sq_rect::Dims;
use sq_spec::laws::entry_is_first;
use sq_spec::{Resolved, forms_are_those_found};
use sq_text::{Arg, Args, Code, Fault, Phase};
use std::alloc::{AllocError, Global};

/// Whether an array of this mode is read.
pub fn is_read(mode: Mode) -> bool
    ensures { result ≡ modes.is_read mode }
{
    mode.is_read()
}

/// The extents of the entry's parameters.
pub fn entry_dims<'r>(resolved: &'r Resolved<'_>) -> &'r [Dims]
    ensures fit { entry_extents resolved.now.mapping.now.sizes
        (params_of resolved.now.typed.now resolved.now.mapping.now) ≡ Ok result.now }
    ensures found { extents_in (slice_get resolved.now.found.entries 0) ≡ result.now }
{
    entry_is_first();
    forms_are_those_found();
    resolved.forms()[0].extents.as_slice()
}

// ---- what the data gives

fn add_want<'p>(wants: &mut Vec<Want<'p>>, param: &'p Param, dims: &Dims) -> Result<(), AllocError>
    ensures { OnOk result
        (map wanted wants.new.items ≡ map wanted wants.old.items
        ++ record { name = param.now.name; elem = param.now.elem; extents = dims.now } ∷ []) }
{
    wants.push(Want {
        name: &param.name,
        elem: param.elem,
        extents: dims.copy(),
    })?;
    Ok(())
}

// Adds the array of a parameter, where it is read.
fn push_want<'p>(wants: &mut Vec<Want<'p>>, param: &'p Param, dims: &Dims) -> Result<(), AllocError>
    ensures { OnOk result (map wanted wants.new.items ≡ map wanted wants.old.items ++ read_want param.now dims.now) }
{
    match param.mode {
        Mode::Input => add_want(wants, param, dims),
        Mode::Both => add_want(wants, param, dims),
        Mode::Output => Ok(()),
    }
}

/// The arrays that are read.
pub fn wants_in<'p>(
    alloc: Global,
    params: &'p [Param],
    extents: &[Dims],
) -> Result<Vec<Want<'p>>, AllocError>
    requires { length extents.now ≡ length params.now }
    ensures { IfOk result (λ wants. map wanted wants.items ≡ wants_of modes.is_read params.now 0 extents.now) }
{
    let mut wants = Vec::new(alloc);
    for (i, param) in params.iter().enumerate() {
        push_want(&mut wants, param, &extents[i])?;
    }
    Ok(wants)
}

// The number of the parameter that is the one of this number among those that are read.
fn number_of(params: &[Param], array: usize) -> usize
    ensures { result ≡ number_from 0 params.now array }
{
    let mut left = array;
    for (i, param) in params.iter().enumerate() {
        if is_read(param.mode) {
            if left == 0 {
                return i;
            }
            left -= 1;
        }
    }
    params.len()
}

/// The arrays of the entry that are read.
#[derive(Drop)]
struct Given<'p> {
    params: &'p [Param],
    arrays: Arrays,
}

impl ArrayTarget for Given<'_> {
    ghost arrays = { λ g. picked g.params.now g.arrays.bytes };

    ghost keeps = { λ g h. KeepsOthers g.params.now h.params.now g.arrays h.arrays };

    fn put(&mut self, array: usize, at: usize, bytes: &[u8]) {
        let number = number_of(self.params, array);
        self.arrays.put(number, at, bytes);
    }

    ghost keeps_itself = { λ g. keeps_itself g.params.now g.arrays };

    ghost keeps_on = { λ g h i first second. keeps_on g.params.now h.params.now i.params.now g.arrays h.arrays i.arrays
        first second };
}

/// The code of a fault of the data.
pub fn code_of(code: InputCode) -> Code
    ensures { result ≡ code_for code }
{
    match code {
        InputCode::LimitFile => Code::LimitFile,
        InputCode::Syntax => Code::Syntax,
        InputCode::Name => Code::Name,
        InputCode::Shape => Code::Shape,
        InputCode::Range => Code::Range,
        InputCode::Short => Code::Short,
        InputCode::Extra => Code::Extra,
    }
}

// The arguments of a fault of the data: the name of the array that is wanted at its place.
fn args_of(alloc: Global, wants: &[Want], array: Option<usize>) -> Result<Args, AllocError>
    ensures { IfOk result (λ args. args ≡ args_for (name_at (map wanted wants.now) array)) }
{
    let mut args = Args::new(alloc);
    let Some(array) = array else {
        return Ok(args);
    };
    if let Some(want) = wants.get(array) {
        args.push(Arg::Word(want.name.copy(alloc)?))?;
    }
    Ok(args)
}

// Reads the values of the data into the arrays of the parameters that are read.
fn give_data<'a, F: Files>(
    alloc: Global,
    files: &mut F,
    name: &'a str,
    params: &[Param],
    wants: &[Want],
    arrays: Arrays,
) -> Result<Arrays, End<'a>>
    requires { HasRoom (map wanted wants.now) (picked params.now arrays.bytes) }
    ensures content { F.content files.new ≡ F.content files.old }
    ensures read { ReadsData params.now (map wanted wants.now) (F.content files.old) name.now arrays result }
    ensures cause { FileCauses (F.faults files.old) (F.faults files.new) (F.misses files.old) (F.misses files.new)
        (ending result) }
{
    let mut given = Given { params, arrays };
    match read_arrays(files, name, wants, &mut given) {
        Ok(()) => Ok(given.arrays),
        Err(ended) => match ended.end {
            InputEnd::Refused { code, place } => match args_of(alloc, wants, ended.array) {
                Ok(args) => Err(End::Refused(Fault {
                    phase: Phase::Input,
                    code: code_of(code),
                    place: Some(place),
                    args,
                })),
                Err(_) => Err(End::NoMemory),
            },
            InputEnd::Failed => Err(End::FileFault(name)),
            InputEnd::Absent => Err(End::Absent(name)),
        },
    }
}

/// Reads the data: the arrays before the run.
pub fn read_given<'a, F: Files>(
    alloc: Global,
    files: &mut F,
    name: &'a str,
    resolved: &Resolved<'_>,
) -> Result<Arrays, End<'a>>
    ensures content { F.content files.new ≡ F.content files.old }
    ensures shapes { IfOk result (λ a. a.shapes ≡ entry_shapes resolved.now.typed.now.tasks resolved.now.mapping.now
        resolved.now.found.entries) }
    ensures given { ReadsGiven resolved.now (F.content files.old) name.now result }
    ensures cause { FileCauses (F.faults files.old) (F.faults files.new) (F.misses files.old) (F.misses files.new)
        (ending result) }
{
    // What is read are values of their types.
    values_are_those_of_their_array();
    let params = resolved.entry_params();
    let wants = match wants_in(alloc, params, entry_dims(resolved)) {
        Ok(wants) => wants,
        Err(_) => return Err(End::NoMemory),
    };
    let arrays = match Arrays::new(alloc, resolved) {
        Ok(arrays) => arrays,
        Err(_) => return Err(End::NoMemory),
    };
    give_data(alloc, files, name, params, wants.as_slice(), arrays)
}

// ---- what is written

// The text of the array.
fn put_array<S: Sink>(out: &mut S, param: &Param, dims: &Dims, bytes: &[u8]) -> Result<(), Failed>
    requires { length bytes.now ≡ product dims.now * width param.now.elem }
    ensures later { S.faults out.old ≤ S.faults out.new }
    ensures wrote { Wrote (S.written out.old) (S.written out.new) (S.faults out.old) (S.faults out.new)
        (stored_output true (record { name = param.now.name; elem = param.now.elem; extents = dims.now }) bytes.now)
        result }
{
    let want = Want {
        name: &param.name,
        elem: param.elem,
        extents: dims.copy(),
    };
    write_array(out, &want, bytes)
}

// The text of a parameter's array, where it is written.
fn put_written<S: Sink>(out: &mut S, param: &Param, dims: &Dims, bytes: &[u8]) -> Result<(), Failed>
    requires { length bytes.now ≡ product dims.now * width param.now.elem }
    ensures later { S.faults out.old ≤ S.faults out.new }
    ensures wrote { Wrote (S.written out.old) (S.written out.new) (S.faults out.old) (S.faults out.new)
        (stored_text param.now dims.now bytes.now) result }
{
    match param.mode {
        Mode::Input => Ok(()),
        Mode::Output => put_array(out, param, dims, bytes),
        Mode::Both => put_array(out, param, dims, bytes),
    }
}

/// Goes on with the text of the outputs: with the array of a parameter.
pub fn put_output<S: Sink>(
    out: &mut S,
    so_far: Result<(), Failed>,
    param: &Param,
    dims: &Dims,
    bytes: &[u8],
) -> Result<(), Failed>
    requires { length bytes.now ≡ product dims.now * width param.now.elem }
    ensures later { S.faults out.old ≤ S.faults out.new }
    ensures wrote { (start : _) (faults : ℕ) (text : List ℕ) → Wrote start (S.written out.old) faults
        (S.faults out.old) text so_far
        → Wrote start (S.written out.new) faults (S.faults out.new) (text ++ stored_text param.now dims.now bytes.now)
        result }
{
    match so_far {
        Ok(()) => put_written(out, param, dims, bytes),
        Err(failed) => Err(failed),
    }
}

// The texts of all.
fn put_outputs<S: Sink>(
    out: &mut S,
    params: &[Param],
    extents: &[Dims],
    arrays: &Arrays,
) -> Result<(), Failed>
    requires extents { length extents.now ≡ length params.now }
    requires shapes { arrays.now.shapes ≡ param_shapes params.now 0 extents.now }
    requires whole { AreWhole arrays.now }
    ensures later { S.faults out.old ≤ S.faults out.new }
    ensures wrote { Wrote (S.written out.old) (S.written out.new) (S.faults out.old) (S.faults out.new)
        (stored_texts params.now 0 extents.now arrays.now.bytes) result }
{
    let mut so_far = Ok(());
    for (i, param) in params.iter().enumerate() {
        so_far = put_output(out, so_far, param, &extents[i], arrays.bytes(i));
    }
    so_far
}

/// Writes the arrays of the entry that are written.
pub fn write_outputs<'a, S: Sink>(
    out: &mut S,
    resolved: &Resolved<'_>,
    arrays: &Arrays,
) -> Result<(), End<'a>>
    requires shapes { arrays.now.shapes ≡ entry_shapes resolved.now.typed.now.tasks resolved.now.mapping.now
        resolved.now.found.entries }
    requires whole { AreWhole arrays.now }
    ensures wrote { (extents : List (List ℕ)) → entry_extents resolved.now.mapping.now.sizes
        (params_of resolved.now.typed.now resolved.now.mapping.now) ≡ Ok extents
        → WroteOut (S.written out.old) (S.written out.new) (S.faults out.old) (S.faults out.new)
        (stored_texts (params_of resolved.now.typed.now resolved.now.mapping.now) 0 extents arrays.now.bytes)
        result }
    ensures cause { (f : ℕ) (m : ℕ) → FileCauses f f m m (ending result) }
{
    match put_outputs(out, resolved.entry_params(), entry_dims(resolved), arrays) {
        Ok(()) => Ok(()),
        Err(Failed) => Err(End::SinkFault),
    }
}
