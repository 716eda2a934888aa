// What the writer answers.
ghost use Rattle.std.specs.Prelude.{◌≡◌};
ghost use Rattle.writing.specs.declared.answers.WriteRefusal.TheVariants.{Lent, Buffer};

use header::layout::Kind;
use refusals::Refusal;

// What is wrong with an edition, a profile and records that are lent to the writer.
#[derive(Clone, Copy)]
pub enum LentFault {
    // 31: the edition or the profile is none that is known, a length is no multiple of a record's, or a count is outside its limits.
    Layout,
    // 32, 33, 34: a record of that kind breaks a rule; its place among those lent.
    Record(Kind, usize),
    // 35: the parents of this group never end.
    Ring(usize),
}

// Why no image is written.
#[derive(Clone, Copy)]
pub enum WriteRefusal {
    // 31 to 35: a rule of what is lent is broken.
    Lent(LentFault),
    // 13: no rule is broken, but the buffer is shorter than the image.
    Buffer(Refusal),
}

impl From<LentFault> for WriteRefusal {
    ghost from_gives = { λ fault refusal. refusal ≡ Lent fault };

    fn from(fault: LentFault) -> WriteRefusal {
        WriteRefusal::Lent(fault)
    }
}

impl From<Refusal> for WriteRefusal {
    ghost from_gives = { λ room refusal. refusal ≡ Buffer room };

    fn from(room: Refusal) -> WriteRefusal {
        WriteRefusal::Buffer(room)
    }
}
