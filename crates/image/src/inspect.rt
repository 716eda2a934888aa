// The fault of an image that is told: the walk meets faults in the order of their keys, so the first is the lowest. Ok: no rule is broken.
ghost use Rattle.std.specs.Prelude.{◌<◌, ◌≡◌};
ghost use Rattle.header.specs.Layout.{counts_of, users};
ghost use Rattle.header.specs.Limits.{Counted};
ghost use Rattle.image.specs.Check.{fault_of};
ghost use Rattle.image.specs.Faults.{below_fault};
ghost use Rattle.image.specs.Walk.{kind_fault, contents_fault, group_fault, counted_fault, Tells};
ghost use Rattle.records.specs.Existing.{Exist};

use crate::faults::{Fault, record_fault};
use blocks::frame::{first_bad_block, length_ok};
use header::layout;
use header::layout::Kind;
use header::rules::{fit_ok, header_ok};
use hierarchy::table::Table;
use hierarchy::{group_rules, set_rows, table};
use records::existing::{Existing, existing_in};
use records::fresh;
use records::fresh::Filter;
use records::kinds::{Found, first_bad_of_kind};

// The first fault of the blocks of a kind.
fn kind_fault(image: &[u8], existing: Existing, kind: Kind, seen: &mut Filter) -> Result<(), Fault>
    requires { Counted image.now × (Exist existing × (existing.counts ≡ counts_of image.now)) }
    ensures { result ≡ kind_fault image.now kind }
{
    match first_bad_of_kind(image, existing, kind, seen) {
        None => Ok(()),
        Some(Found::Layout(b)) => Err(Fault::Layout(b)),
        Some(Found::Record(b, r)) => {
            let block = b as u16;
            let slot = r as u16;
            Err(record_fault(kind, block, slot))
        }
    }
}

// The block and the place there of a user's record.
fn below_fault(image: &[u8], u: usize) -> Fault
    requires { Counted image.now × (u < users image.now) }
    ensures { result ≡ below_fault image.now u }
{
    let shape = layout::shape_of(image, Kind::User);
    let b = layout::record_block(shape, u);
    let r = layout::record_slot(shape, u);
    let block = b as u16;
    let slot = r as u16;
    Fault::Below(block, slot)
}

// The first fault of the groups, once all records are sound. The table is lent: where there is no fault it is filled.
fn group_fault(image: &[u8], table: &mut Table) -> Result<(), Fault>
    requires { Counted image.now }
    ensures { Tells image.now table.new (group_fault image.now) result }
{
    let g = table::first_ring(image, table);
    if g < layout::groups(image) {
        return Err(Fault::Ring(g));
    }
    let mut rows = set_rows::EMPTY;
    let u = group_rules::first_bad_below(image, table, &mut rows);
    if u < layout::users(image) {
        return Err(below_fault(image, u));
    }
    Ok(())
}

// The first fault of the blocks after the header: components stand first, then labels, then users.
fn contents_fault(image: &[u8]) -> Result<(), Fault>
    requires { Counted image.now }
    ensures { result ≡ contents_fault image.now }
{
    let existing = existing_in(image);
    let mut seen = fresh::EMPTY;
    kind_fault(image, existing, Kind::Component, &mut seen)?;
    kind_fault(image, existing, Kind::Label, &mut seen)?;
    kind_fault(image, existing, Kind::User, &mut seen)
}

// The first fault once the header and the length are sound.
fn counted_fault(image: &[u8], table: &mut Table) -> Result<(), Fault>
    requires { Counted image.now }
    ensures { Tells image.now table.new (counted_fault image.now) result }
{
    contents_fault(image)?;
    group_fault(image, table)
}

pub fn first_fault(image: &[u8], table: &mut Table) -> Result<(), Fault>
    ensures { Tells image.now table.new (fault_of image.now) result }
{
    if !length_ok(image) {
        return Err(Fault::Length);
    }
    let bad = first_bad_block(image);
    if bad < image.len() / 512 {
        return Err(Fault::Block(bad));
    }
    if !(header_ok(image) & fit_ok(image)) {
        return Err(Fault::Layout(0));
    }
    counted_fault(image, table)
}
