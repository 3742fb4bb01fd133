//! The top call on words and files that are handed in.
ghost use Rattle.std.specs.Prelude.{◌≡◌, ◌≢◌, None};
ghost use Rattle.sq_port.specs.Ports.{Content};
ghost use Rattle.sq_words.specs.Words.{command_of, texts};
ghost use Rattle.sq_driver.specs.Top.{IsDemoDone};
ghost use Rattle.sq_call.specs.Given.{bytes_of, command_in, content_of};
ghost use Rattle.sq_call.specs.Saying.{Called, Lacks, NamesNone, Says, SaysOnly, number_of, status_said, text_said};

use crate::given::{NoWords, words_of};
use crate::handed::{File, Handed};
use crate::text_sink::TextSink;
use sq_driver::{Status, put_usage, sq_top};
use sq_tree::RawBank;
use std::alloc::Global;

/// What the top call says: its status, and its texts for standard output and standard error.
#[derive(Drop)]
pub struct Said {
    pub status: Status,
    pub out: Vec<u8>,
    pub err: Vec<u8>,
}

impl Said {
    /// The status as the program's exit status.
    pub fn number(&self) -> u32
        ensures { result ≡ number_of self.now.status }
    {
        self.status as u32
    }
}

/// Does what the words say, over these files alone. A word that is no UTF-8 makes the words no command. Each call is by
/// itself: nothing is kept from one to the next, and what is handed in stays as it is.
pub fn call(alloc: Global, words: &[&[u8]], files: &[File<'_>]) -> Said
    // The answer is the one that the words and the files say, with both texts whole, or want of memory with none.
    ensures says { Says (command_in (bytes_of words.now)) (content_of files.now) result.status result.out.items
        result.err.items }

    // What the words and the files say is answered, or want of memory in its place.
    ensures only { SaysOnly (command_in (bytes_of words.now)) (content_of files.now) result.status }

    // No read fails, and no put but for want of memory.
    ensures no_file_fault { result.status ≢ Status.FileFault }
    ensures no_sink_fault { result.status ≢ Status.SinkFault }

    // A file is absent only where a word names one that wasn't handed in.
    ensures absent { result.status ≡ Status.Absent → NamesNone (command_in (bytes_of words.now))
        (content_of files.now) }

    // The demo is done, or memory was wanting.
    ensures demo { IsDemoDone (command_in (bytes_of words.now)) result.status }
{
    called(alloc, words, files)
}

#[tactic(auto, using(crate::proofs::Telling::for_texts, crate::proofs::Telling::lacking))]
fn called(alloc: Global, words: &[&[u8]], files: &[File<'_>]) -> Said
    ensures { Called (command_in (bytes_of words.now)) (content_of files.now) result.status result.out.items
        result.err.items }
{
    match words_of(alloc, words) {
        Ok(words) => answer(alloc, &words, files),
        Err(NoWords::NotText) => refuse(alloc),
        Err(NoWords::NoMemory) => lack(alloc),
    }
}

// What the top call answers.
fn answer(alloc: Global, words: &[String], files: &[File<'_>]) -> Said
    ensures { Called (command_of (texts words.now)) (content_of files.now) result.status result.out.items
        result.err.items }
{
    let mut files = Handed::new(files);
    let mut out = TextSink::new(alloc);
    let mut err = TextSink::new(alloc);
    let mut bank = RawBank::new();
    let status = sq_top(alloc, words, &mut files, &mut out, &mut err, &mut bank);
    told(alloc, status, out, err)
}

// What it would answer to words that are no command.
fn refuse(alloc: Global) -> Said
    ensures { (c : Content) → Called None c result.status result.out.items result.err.items }
{
    let mut err = TextSink::new(alloc);
    let status = put_usage(&mut err);
    told(alloc, status, TextSink::new(alloc), err)
}

// A sink that failed lacked memory, and for want of memory no text is given.
fn told(alloc: Global, status: Status, out: TextSink, err: TextSink) -> Said
    ensures status { result.status ≡ status_said status }
    ensures out { result.out.items ≡ text_said status out.text.items }
    ensures err { result.err.items ≡ text_said status err.text.items }
{
    match status {
        Status::SinkFault | Status::NoMemory => lack(alloc),
        status => Said {
            status,
            out: out.into_text(),
            err: err.into_text(),
        },
    }
}

// What is said for want of memory.
fn lack(alloc: Global) -> Said
    ensures { Lacks result.status result.out.items result.err.items }
{
    Said {
        status: Status::NoMemory,
        out: Vec::new(alloc),
        err: Vec::new(alloc),
    }
}

#[cfg(test)]
mod tests {
    use super::*;
    use std::test::Fail;

    const PROGRAM: &[u8] =
        b"void task t::leaf(in int A[N], out int B[N]) { for (int i = 0; i < N; i++) B[i] = A[i]; }";

    #[test]
    fn what_the_words_and_the_files_say_is_answered(rt: HostRuntime) -> Result<(), Fail> {
        let files = [
            File {
                name: b"p",
                bytes: PROGRAM,
            },
            File {
                name: b"p",
                bytes: b"void",
            },
        ];
        let checked = call(rt.alloc(), &[b"check".as_slice(), b"p".as_slice()], &files);
        assert_eq!(rt; checked.number(), 0);
        assert_eq!(rt; checked.out.as_slice(), b"ok\n".as_slice());
        assert_eq!(rt; checked.err.as_slice(), b"".as_slice());
        let absent = call(rt.alloc(), &[b"check".as_slice(), b"q".as_slice()], &files);
        assert_eq!(rt; absent.number(), 7);
        assert_eq!(rt; absent.err.as_slice(), b"absent q\n".as_slice());
        Ok(())
    }

    #[test]
    fn words_that_are_no_texts_are_no_command(rt: HostRuntime) -> Result<(), Fail> {
        let said = call(rt.alloc(), &[b"check".as_slice(), b"\xff".as_slice()], &[]);
        assert_eq!(rt; said.number(), 3);
        Ok(())
    }
}
