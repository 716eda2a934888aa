// Records of edition 1 written without COMPACCESS.
ghost use Rattle.std.specs.Prelude.{◌+◌, ◌<◌, ◌≤◌, ◌≡◌, length};
ghost use Rattle.buffers.specs.Pasting.{Written};
ghost use Rattle.moves.specs.Moved.{without_compaccess, clear_user};
ghost use Rattle.moves.specs.declared.target.Move.TheVariants.{Clear};

use crate::target::Step;
use buffers::given::put;
use header::edition::Edition;
use header::layout::Kind;
use sets::word;

// Privileges without COMPACCESS.
fn without_compaccess(held: u8) -> u8
    ensures { result ≡ without_compaccess held }
{
    word::without(held as u64, 2) as u8
}

// Writes a user: every byte as it was but for the privileges.
fn put_cleared_user(rec: &[u8], buffer: &mut [u8], at: usize) -> usize
    requires { (length rec.now ≡ 128) × (at + 128 ≤ length buffer.old) }
    ensures { Written buffer.old at (clear_user rec.now) buffer.new result }
{
    let held = [without_compaccess(rec[31])];
    let name = put(&rec[0..31], buffer, at);
    let privileges = put(&held, buffer, name);
    put(&rec[32..], buffer, privileges)
}

// The move in edition 1, without COMPACCESS.
pub(crate) struct Clearing;

impl Step for Clearing {
    ghost which = { Clear };

    fn edition() -> Edition {
        Edition::One
    }

    fn put(kind: Kind, rec: &[u8], buffer: &mut [u8], at: usize) -> usize {
        match kind {
            Kind::Component => put(rec, buffer, at),
            Kind::Label => put(rec, buffer, at),
            Kind::User => put_cleared_user(rec, buffer, at),
        }
    }
}
