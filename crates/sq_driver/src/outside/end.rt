//! Why a command stops before it is done.
ghost use Rattle.std.specs.Prelude.{◌≡◌, ◌≢◌, ◌≤◌};
ghost use Rattle.sq_port.specs.Ports.{Rose, Gains, GainsPrefix, Wrote};
ghost use Rattle.sq_driver.specs.Texts.{usage_line};
ghost use Rattle.sq_driver.specs.Ends.{status_of, end_text};

use crate::outside::status::Status;
use sq_port::{Failed, Sink, put_next};
use sq_report::{Trap, put_fault, put_named, put_trap};
use sq_text::Fault;

#[derive(Drop)]
pub enum End<'a> {
    Usage,
    /// A file of this name isn't there.
    Absent(&'a str),
    /// A read of the file of this name failed.
    FileFault(&'a str),
    Refused(Fault),
    /// The source traps.
    Trapped(Trap),
    NoMemory,
    SinkFault,
}

impl End<'_> {
    pub fn status(&self) -> Status
        ensures { result ≡ status_of self.now }
    {
        match self {
            End::Usage => Status::Usage,
            End::Absent(_) => Status::Absent,
            End::FileFault(_) => Status::FileFault,
            End::Refused(_) => Status::Refused,
            End::Trapped(_) => Status::Trapped,
            End::NoMemory => Status::NoMemory,
            End::SinkFault => Status::SinkFault,
        }
    }
}

/// Puts the line of an end; after SinkFault none.
pub fn put_end<E: Sink>(err: &mut E, end: &End<'_>) -> Result<(), Failed>
    ensures later { E.faults err.old ≤ E.faults err.new }
    ensures wrote { Wrote (E.written err.old) (E.written err.new) (E.faults err.old) (E.faults err.new)
        (end_text end.now) result }
{
    match end {
        End::Usage => put_usage_line(err),
        End::Absent(name) => put_named(err, b"absent ", name.as_bytes()),
        End::FileFault(name) => put_named(err, b"fault ", name.as_bytes()),
        End::Refused(fault) => put_fault(err, fault),
        End::Trapped(trap) => put_trap(err, trap),
        End::NoMemory => put_next(err, Ok(()), b"no memory\n"),
        End::SinkFault => Ok(()),
    }
}

#[tactic(auto, unfolding(crate::specs::Texts::usage_line))]
fn put_usage_line<E: Sink>(err: &mut E) -> Result<(), Failed>
    ensures later { E.faults err.old ≤ E.faults err.new }
    ensures wrote { Wrote (E.written err.old) (E.written err.new) (E.faults err.old) (E.faults err.new) usage_line
        result }
{
    put_next(
        err,
        Ok(()),
        b"usage: sq check PROG | fmt PROG | plan PROG MAP MACH | eval PROG MAP MACH DATA | run PROG MAP MACH DATA [order=first|last|seed:N|list:FILE] [trace=yes|no] | demo N | compile PROG MAP MACH | exec PLAN DATA [order=first|last|seed:N|list:FILE] [trace=yes|no] | tune PROG MAP MACH | span PROG MAP MACH COST\n",
    )
}

/// What the tool answers where a word is no text: the usage line.
pub fn put_usage<E: Sink>(err: &mut E) -> Status
    ensures usage { result ≢ Status.SinkFault → (result ≡ Status.Usage) × Gains (E.written err.old)
        (E.written err.new) usage_line }
    ensures sink_fault { result ≡ Status.SinkFault → GainsPrefix (E.written err.old) (E.written err.new) usage_line
        × Rose (E.faults err.old) (E.faults err.new) }
    ensures no_sink_fault { result ≢ Status.SinkFault → E.faults err.new ≡ E.faults err.old }
{
    match put_end(err, &End::Usage) {
        Ok(()) => Status::Usage,
        Err(Failed) => Status::SinkFault,
    }
}
