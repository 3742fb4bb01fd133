//! Files that are handed in.
ghost use Rattle.std.specs.Prelude.{◌≡◌, ◌≤◌, length};
ghost use Rattle.std.specs.Option.{option_map};
ghost use Rattle.sq_port.specs.Ports.{Reads};
ghost use Rattle.sq_call.specs.Given.{content_of};

use sq_port::{FileEnd, Files};

/// A file: the name that words call it by, and what it holds.
#[repr(C)]
#[derive(Drop)]
pub struct File<'a> {
    pub name: &'a [u8],
    pub bytes: &'a [u8],
}

/// Files that no read of fails. Of two with one name the first counts.
#[derive(Drop)]
pub(crate) struct Handed<'a, 'b> {
    files: &'a [File<'b>],
    misses: u64,
}

impl<'a, 'b> Handed<'a, 'b> {
    pub(crate) fn new(files: &'a [File<'b>]) -> Self
        ensures { result.files.now ≡ files.now }
    {
        Handed { files, misses: 0 }
    }
}

impl Files for Handed<'_, '_> {
    ghost use Rattle.std.specs.Prelude.{Some};
    ghost use Rattle.sq_call.specs.Given.{content_of};

    ghost content = { λ h. Some (content_of h.files.now) };

    ghost faults = { λ h. 0 };

    ghost misses = { λ h. h.misses };

    fn read_at(&mut self, name: &str, at: u64, into: &mut [u8]) -> Result<usize, FileEnd> {
        match find(self.files, name.as_bytes()) {
            Some(bytes) => Ok(copy_part(bytes, at, into)),
            None => {
                self.misses = self.misses.saturating_add(1);
                Err(FileEnd::Absent)
            }
        }
    }
}

// What the first file of that name holds.
fn find<'b>(files: &[File<'b>], name: &[u8]) -> Option<&'b [u8]>
    ensures { option_map (λ b. b.now) result ≡ content_of files.now name.now }
{
    for file in files {
        if file.name == name {
            return Some(file.bytes);
        }
    }
    None
}

// Copies as many bytes from that place on as there is room for.
fn copy_part(bytes: &[u8], at: u64, into: &mut [u8]) -> usize
    ensures bound { result ≤ length into.new }
    ensures part { Reads bytes.now at into.new result }
{
    if at >= bytes.len() as u64 {
        return 0;
    }
    let rest = &bytes[at as usize..];
    let count = rest.len().min(into.len());
    into[..count].copy_from_slice(&rest[..count]);
    count
}
