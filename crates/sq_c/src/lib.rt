//! `sq` for C: words and files are handed in as bytes, and the texts go to the caller's rooms.
#![tactic(auto)]

ghost use Rattle.std.specs.Prelude.{◌≡◌, ◌≢◌, length};
ghost use Rattle.sq_call.specs.Given.{bytes_of, command_in, content_of};
ghost use Rattle.sq_call.specs.Saying.{NamesNone};
ghost use Rattle.sq_c.specs.Rooms.{IsGiven, filled};

use sq_call::{File, call};
use std::alloc::Global;

/// How many bytes each text has, also where its room is smaller.
#[repr(C)]
#[derive(Drop)]
pub struct Lengths {
    pub out: usize,
    pub err: usize,
}

/// Does what the words say, over these files alone, and gives the status. The front of each text goes to its room, as
/// far as there is room, and the lengths of both are told.
#[unsafe(no_mangle)]
pub extern "C" fn sq_call(
    alloc: Global,
    words: &[&[u8]],
    files: &[File<'_>],
    out: &mut [u8],
    err: &mut [u8],
    lengths: &mut Lengths,
) -> u32
    // The status and both texts are those of the call, of which the rooms have what they hold.
    ensures given { IsGiven (command_in (bytes_of words.now)) (content_of files.now) result out.old out.new err.old
        err.new lengths.new }

    // No file fails and no sink, and a file is absent only where a word names one that wasn't handed in.
    ensures no_file_fault { result ≢ 4 }
    ensures no_sink_fault { result ≢ 5 }
    ensures absent { result ≡ 7 → NamesNone (command_in (bytes_of words.now)) (content_of files.now) }
{
    let said = call(alloc, words, files);
    let out_length = fill(out, &said.out);
    let err_length = fill(err, &said.err);
    *lengths = Lengths {
        out: out_length,
        err: err_length,
    };
    said.number()
}

// Copies as much of a text as there is room for, and gives its length.
fn fill(room: &mut [u8], text: &[u8]) -> usize
    ensures room { room.new ≡ filled room.old text.now }
    ensures length { result ≡ length text.now }
{
    let count = room.len().min(text.len());
    room[..count].copy_from_slice(&text[..count]);
    text.len()
}

#[cfg(test)]
mod tests {
    use super::*;
    use std::test::Fail;

    #[test]
    fn a_text_goes_to_its_room(rt: HostRuntime) -> Result<(), Fail> {
        let files = [File {
            name: b"p",
            bytes: b"void task t::leaf(out int A[1]) { A[0] = 1; }",
        }];
        let mut lengths = Lengths { out: 0, err: 9 };
        let (mut out, mut err) = ([0u8; 2], [0u8; 2]);
        let status = sq_call(
            rt.alloc(),
            &[b"check".as_slice(), b"p".as_slice()],
            &files,
            &mut out,
            &mut err,
            &mut lengths,
        );
        assert_eq!(rt; status, 0);
        assert_eq!(rt; (lengths.out, lengths.err), (3, 0));
        assert_eq!(rt; out.as_slice(), b"ok".as_slice());
        Ok(())
    }
}
