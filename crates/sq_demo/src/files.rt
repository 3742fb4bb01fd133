//! The texts of the demo as files.
ghost use Rattle.std.specs.Prelude.{◌≡◌, ◌≤◌, List, length, IfOk};
ghost use Rattle.sq_port.specs.Ports.{Reads};
ghost use Rattle.sq_demo.specs.Texts.{demo_content, text_named};

use crate::data::data_text;
use sq_port::{FileEnd, Files};
use sq_report::{DemoInput, demo_texts};
use std::alloc::{AllocError, Global};

/// The program, the mapping and the machine by these names, and the data by every other name. No read fails.
#[derive(Drop)]
pub struct DemoFiles {
    texts: DemoInput,
    input: Vec<u8>,
}

impl DemoFiles {
    ghost use Rattle.sq_demo.specs.Files.{files_content};

    /// Those of the demo of this number.
    pub fn new(alloc: Global, seed: u64) -> Result<DemoFiles, AllocError>
        ensures { IfOk result (λ files. files_content files ≡ demo_content seed) }
    {
        let texts = demo_texts(alloc)?;
        let input = data_text(alloc, seed)?;
        Ok(DemoFiles { texts, input })
    }

    // What a name holds.
    fn text(&self, name: &str) -> &[u8]
        ensures { result.now ≡ text_named self.now.texts.program.items self.now.texts.mapping.items
            self.now.texts.machine.items self.now.input.items name.now }
    {
        if name == "program" {
            &self.texts.program
        } else if name == "mapping" {
            &self.texts.mapping
        } else if name == "machine" {
            &self.texts.machine
        } else {
            &self.input
        }
    }
}

impl Files for DemoFiles {
    ghost use Rattle.std.specs.Prelude.{Some};
    ghost use Rattle.sq_demo.specs.Files.{files_content};

    ghost content = { λ f. Some (files_content f) };

    ghost faults = { λ f. 0 };

    ghost misses = { λ f. 0 };

    fn read_at(&mut self, name: &str, at: u64, into: &mut [u8]) -> Result<usize, FileEnd> {
        Ok(copy_part(self.text(name), at, into))
    }
}

// Copies as many bytes from that place on as there is room for.
fn copy_part(bytes: &[u8], at: u64, into: &mut [u8]) -> usize
    ensures bound { result ≤ length into.new }
    ensures part { Reads bytes.now at into.new result }
{
    if at >= bytes.len() as u64 {
        return 0;
    }
    let rest = &bytes[at as usize..];
    let count = rest.len().min(into.len());
    into[..count].copy_from_slice(&rest[..count]);
    count
}
