// Numbers for what several C functions give back.
ghost use Rattle.std.specs.Prelude.{◌≡◌, Err};
ghost use Rattle.refusals.specs.Answers.{PlaceFits, code_of};
ghost use Rattle.image.specs.Exactly.{record_number};
ghost use Rattle.writing.specs.Lent.{fault_given};
ghost use Rattle.writing.specs.Calls.{write_given};

use encoding::answers::{refused, told};
use header::layout::Kind;
use refusals::{Refusal, number};
use writing::answers::{LentFault, WriteRefusal};

// The number of a fault of a record of that kind, wherever the record stands.
fn record_number(kind: Kind) -> u8
    ensures { result ≡ record_number kind }
{
    match kind {
        Kind::Component => number(Refusal::ComponentRecord(0, 0)),
        Kind::Label => number(Refusal::LabelRecord(0, 0)),
        Kind::User => number(Refusal::UserRecord(0, 0)),
    }
}

// The fault of what is lent to the writer.
fn fault_code(fault: LentFault) -> u64
    requires { PlaceFits (fault_given fault) }
    ensures { result ≡ code_of (fault_given fault) }
{
    match fault {
        LentFault::Layout => refused(Refusal::ImageLayout),
        LentFault::Record(kind, i) => told(record_number(kind), i),
        LentFault::Ring(g) => refused(Refusal::ParentRing(g)),
    }
}

// Why no image is written.
fn unwritten_code(refusal: WriteRefusal) -> u64
    requires { PlaceFits (write_given (Err refusal)) }
    ensures { result ≡ code_of (write_given (Err refusal)) }
{
    match refusal {
        WriteRefusal::Lent(fault) => fault_code(fault),
        WriteRefusal::Buffer(room) => refused(room),
    }
}

// How many bytes the image has, or the refusal.
pub(crate) fn write_code(answer: Result<usize, WriteRefusal>) -> u64
    requires { PlaceFits (write_given answer) }
    ensures { result ≡ code_of (write_given answer) }
{
    match answer {
        Ok(n) => n as u64,
        Err(refusal) => unwritten_code(refusal),
    }
}
