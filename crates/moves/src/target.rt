// The two moves. Code names each by a type of its own with what differs between them; `Move` is the same choice as data, of which specs/ speaks.
ghost use Rattle.std.specs.Prelude.{◌+◌, ◌≤◌, ◌≡◌, length};
ghost use Rattle.buffers.specs.Pasting.{Written};
ghost use Rattle.header.specs.declared.edition.Edition.TheVariants.{One};
ghost use Rattle.header.specs.Layout.{record_size};
ghost use Rattle.moves.specs.declared.target.Move.{Move};
ghost use Rattle.moves.specs.Moved.{edition_after, new_record};

use header::edition::Edition;
use header::layout::Kind;

#[derive(Clone, Copy)]
pub enum Move {
    // Up to edition 2.
    Up,
    // In edition 1, without COMPACCESS.
    Clear,
}

// What differs between the moves.
pub(crate) trait Step {
    ghost which: { Move };

    // The edition that the move writes.
    fn edition() -> Edition
        ensures { result ≡ edition_after which };

    // Writes the record of that kind.
    fn put(kind: Kind, rec: &[u8], buffer: &mut [u8], at: usize) -> usize
        requires { (length rec.now ≡ record_size One kind) × (at + record_size (edition_after which) kind ≤ length buffer.old) }
        ensures { Written buffer.old at (new_record which kind rec.now) buffer.new result };
}
