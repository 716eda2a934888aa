// What is wrong with an image, and how it is told.
ghost use Rattle.std.specs.Prelude.{◌≡◌};
ghost use Rattle.image.specs.Faults.{refusal_of, record_fault};

use header::layout::Kind;
use refusals::Refusal;

// A fault of an image: the rule that is broken, and where.
#[derive(Clone, Copy)]
pub enum Fault {
    // The length is 0, no multiple of 512 or over 65,536.
    Length,
    // The check or the place of this block is wrong.
    Block(usize),
    // The header (block 0), a length unfit for its counts (block 0), or the block's kind, record count or bytes outside records.
    Layout(usize),
    // A component, label or user record: its block, and its place there.
    Component(u16, u16),
    Label(u16, u16),
    User(u16, u16),
    // The parents of this group never end.
    Ring(usize),
    // The groups of a user break the rule of group sets: the block of the user's record, and its place there.
    Below(u16, u16),
}

impl From<Fault> for Refusal {
    ghost from_gives = { λ fault refusal. refusal ≡ refusal_of fault };

    fn from(fault: Fault) -> Refusal {
        match fault {
            Fault::Length => Refusal::ImageLength,
            Fault::Block(b) => Refusal::BlockCheck(b),
            Fault::Layout(_) => Refusal::ImageLayout,
            Fault::Component(b, r) => Refusal::ComponentRecord(b, r),
            Fault::Label(b, r) => Refusal::LabelRecord(b, r),
            Fault::User(b, r) => Refusal::UserRecord(b, r),
            Fault::Ring(g) => Refusal::ParentRing(g),
            Fault::Below(b, r) => Refusal::UserRecord(b, r),
        }
    }
}

pub fn record_fault(kind: Kind, b: u16, r: u16) -> Fault
    ensures { result ≡ record_fault kind b r }
{
    match kind {
        Kind::Component => Fault::Component(b, r),
        Kind::Label => Fault::Label(b, r),
        Kind::User => Fault::User(b, r),
    }
}
