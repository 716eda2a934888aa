// Records of edition 1 written as edition 2 has them.
ghost use Rattle.std.specs.Prelude.{◌+◌, ◌<◌, ◌≤◌, ◌≡◌, length};
ghost use Rattle.buffers.specs.Pasting.{Written};
ghost use Rattle.writing.specs.Laid.{bytes2};
ghost use Rattle.moves.specs.Moved.{wide_parent, wide_set, up_component, up_label, up_user};
ghost use Rattle.moves.specs.declared.target.Move.TheVariants.{Up};

use crate::target::Step;
use buffers::given::put;
use header::edition::Edition;
use header::layout::Kind;
use writing::block::{high, low, put_zeros};

// A parent's place, or none as edition 2 has it.
fn wide_parent(parent: u8) -> usize
    ensures { (result ≡ wide_parent parent) × (result < 65536) }
{
    if parent == 255 {
        65535
    } else {
        parent as usize
    }
}

// Writes a number in two bytes, the low one first.
fn put_number(x: usize, buffer: &mut [u8], at: usize) -> usize
    requires { (x < 65536) × (at + 2 ≤ length buffer.old) }
    ensures { Written buffer.old at (bytes2 x) buffer.new result }
{
    let bytes = [low(x), high(x)];
    put(&bytes, buffer, at)
}

// Writes a component: class, name and numeric form as they were, the parent in two bytes, four bytes unused.
fn put_component(rec: &[u8], buffer: &mut [u8], at: usize) -> usize
    requires { (length rec.now ≡ 40) × (at + 40 ≤ length buffer.old) }
    ensures { Written buffer.old at (up_component rec.now) buffer.new result }
{
    let parent = wide_parent(rec[34]);
    let kept = put(&rec[0..34], buffer, at);
    let end = put_number(parent, buffer, kept);
    put_zeros(buffer, end, 4)
}

// Writes the set of groups that stands at byte k of the record, and no group past its 64th.
fn put_set(rec: &[u8], k: usize, buffer: &mut [u8], at: usize) -> usize
    requires { (k + 8 ≤ length rec.now) × (at + 32 ≤ length buffer.old) }
    ensures { Written buffer.old at (wide_set rec.now k) buffer.new result }
{
    let kept = put(&rec[k..k + 8], buffer, at);
    put_zeros(buffer, kept, 24)
}

// Writes a label: tag, level and compartments as they were, then its groups.
fn put_label(rec: &[u8], buffer: &mut [u8], at: usize) -> usize
    requires { (length rec.now ≡ 24) × (at + 48 ≤ length buffer.old) }
    ensures { Written buffer.old at (up_label rec.now) buffer.new result }
{
    let kept = put(&rec[0..16], buffer, at);
    put_set(rec, 16, buffer, kept)
}

// Writes a user: name, privileges, levels and compartments as they were, then the four sets of groups in their order.
fn put_user(rec: &[u8], buffer: &mut [u8], at: usize) -> usize
    requires { (length rec.now ≡ 128) × (at + 200 ≤ length buffer.old) }
    ensures { Written buffer.old at (up_user rec.now) buffer.new result }
{
    let kept = put(&rec[0..72], buffer, at);
    let read = put_set(rec, 72, buffer, kept);
    let write = put_set(rec, 80, buffer, read);
    let default = put_set(rec, 88, buffer, write);
    put_set(rec, 96, buffer, default)
}

// The move up to edition 2.
pub(crate) struct Widening;

impl Step for Widening {
    ghost which = { Up };

    fn edition() -> Edition {
        Edition::Two
    }

    fn put(kind: Kind, rec: &[u8], buffer: &mut [u8], at: usize) -> usize {
        match kind {
            Kind::Component => put_component(rec, buffer, at),
            Kind::Label => put_label(rec, buffer, at),
            Kind::User => put_user(rec, buffer, at),
        }
    }
}
