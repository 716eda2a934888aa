// Why a text is refused.
ghost use Rattle.std.specs.Prelude.{◌≡◌};
ghost use Rattle.labels.specs.Parse.{refusal_of};

use refusals::Refusal;

// 5, its shape; 6, a name that its class lacks; 7, a name that came before in its list. The last two carry the name's offset.
#[derive(Clone, Copy)]
pub enum Reason {
    Shape,
    Unknown(usize),
    Repeated(usize),
}

// The refusal that tells the reason.
impl From<Reason> for Refusal {
    ghost from_gives = { λ reason r. r ≡ refusal_of reason };

    fn from(reason: Reason) -> Refusal {
        match reason {
            Reason::Shape => Refusal::TextShape,
            Reason::Unknown(offset) => Refusal::UnknownName(offset),
            Reason::Repeated(offset) => Refusal::RepeatedName(offset),
        }
    }
}
