// The counts in an image's header, and where by them the blocks and records stand.
ghost use Rattle.std.specs.Prelude.{◌/◌, ◌^◌, ◌<◌, ◌≤◌, ◌≡◌, length};
ghost use Rattle.header.specs.Layout.{edition_of, counts_of, class_count, class_first, kind_byte, record_size, capacity_of, count_of, blocks_of, first_block, blocks_needed, Fitted, Roomy, Shaped, record_block, record_slot, record_offset, record_at, component_name_offset};
ghost use Rattle.header.specs.Layout as layout;
ghost use Rattle.header.specs.declared.edition.Edition.TheVariants.{One};
ghost use Rattle.header.specs.declared.layout.Kind.TheVariants as kind;

use crate::edition::{Edition, by_edition, edition_of};
use fields::numbers::number2;

// What the records of a block are.
#[derive(Clone, Copy)]
pub enum Kind {
    Component,
    Label,
    User,
}

// A kind's first block, the size of a record, how many a block holds, how many there are.
#[derive(Clone, Copy)]
pub struct Shape {
    pub first: usize,
    pub size: usize,
    pub capacity: usize,
    pub count: usize,
}

// What a block after the header holds: its kind, its records from `from` up to `to`, unused bytes from `end` on.
#[derive(Clone, Copy)]
pub struct Contents {
    pub kind: Kind,
    pub from: usize,
    pub to: usize,
    pub end: usize,
}

pub fn levels(image: &[u8]) -> usize
    requires { 512 ≤ length image.now }
    ensures { (result ≡ layout.levels image.now) × (result < 256) }
{
    image[5] as usize
}

pub fn compartments(image: &[u8]) -> usize
    requires { 512 ≤ length image.now }
    ensures { (result ≡ layout.compartments image.now) × (result < 256) }
{
    image[6] as usize
}

pub fn groups(image: &[u8]) -> usize
    requires { 512 ≤ length image.now }
    ensures { (result ≡ layout.groups image.now) × (result < 65536) }
{
    match edition_of(image) {
        Edition::One => image[7] as usize,
        Edition::Two => number2(image, 14) as usize,
    }
}

pub fn users(image: &[u8]) -> usize
    requires { 512 ≤ length image.now }
    ensures { (result ≡ layout.users image.now) × (result < 65536) }
{
    number2(image, 8) as usize
}

pub fn labels(image: &[u8]) -> usize
    requires { 512 ≤ length image.now }
    ensures { (result ≡ layout.labels image.now) × (result < 65536) }
{
    number2(image, 10) as usize
}

pub fn components(image: &[u8]) -> usize
    requires { 512 ≤ length image.now }
    ensures { (result ≡ layout.components image.now) × (result < 131072) }
{
    levels(image) + compartments(image) + groups(image)
}

// How many components a class has: 1 level, 2 compartment, 3 group.
pub fn class_count(image: &[u8], class: u8) -> usize
    requires { 512 ≤ length image.now }
    ensures { (result ≡ class_count (counts_of image.now) class) × (result < 65536) }
{
    if class == 1 {
        return levels(image);
    }
    if class == 2 {
        return compartments(image);
    }
    groups(image)
}

// The place of the first component of a class, among all components.
pub fn class_first(image: &[u8], class: u8) -> usize
    requires { 512 ≤ length image.now }
    ensures { (result ≡ class_first (counts_of image.now) class) × (result < 512) }
{
    if class == 1 {
        return 0;
    }
    if class == 2 {
        return levels(image);
    }
    levels(image) + compartments(image)
}

pub fn kind_byte(kind: Kind) -> u8
    ensures { result ≡ kind_byte kind }
{
    match kind {
        Kind::Component => b'C',
        Kind::Label => b'L',
        Kind::User => b'U',
    }
}

// How many bytes a record has.
pub fn size(edition: Edition, kind: Kind) -> usize
    ensures { result ≡ record_size edition kind }
{
    match kind {
        Kind::Component => 40,
        Kind::Label => by_edition(edition, 24, 48),
        Kind::User => by_edition(edition, 128, 200),
    }
}

// How many records a block holds.
pub fn capacity(edition: Edition, kind: Kind) -> usize
    ensures { (result ≡ capacity_of edition kind) × ((1 ≤ result) × (result ≤ 21)) }
{
    match kind {
        Kind::Component => 12,
        Kind::Label => by_edition(edition, 21, 10),
        Kind::User => by_edition(edition, 3, 2),
    }
}

// How many records the counts name.
pub fn count(image: &[u8], kind: Kind) -> usize
    requires { 512 ≤ length image.now }
    ensures { (result ≡ count_of image.now kind) × (result < 131072) }
{
    match kind {
        Kind::Component => components(image),
        Kind::Label => labels(image),
        Kind::User => users(image),
    }
}

// How many blocks they need.
fn blocks(image: &[u8], kind: Kind) -> usize
    requires { 512 ≤ length image.now }
    ensures { (result ≡ blocks_of image.now kind) × (result < 131093) }
{
    let held = capacity(edition_of(image), kind);
    (count(image, kind) + (held - 1)) / held
}

pub fn first_block(image: &[u8], kind: Kind) -> usize
    requires { 512 ≤ length image.now }
    ensures { (result ≡ first_block image.now kind) × (result < 262187) }
{
    match kind {
        Kind::Component => 1,
        Kind::Label => 1 + blocks(image, Kind::Component),
        Kind::User => 1 + blocks(image, Kind::Component) + blocks(image, Kind::Label),
    }
}

pub fn blocks_needed(image: &[u8]) -> usize
    requires { 512 ≤ length image.now }
    ensures { (result ≡ blocks_needed image.now) × (result < 400000) }
{
    first_block(image, Kind::User) + blocks(image, Kind::User)
}

pub fn shape_of(image: &[u8], kind: Kind) -> Shape
    requires { 512 ≤ length image.now }
    ensures { Shaped image.now kind result }
{
    let edition = edition_of(image);
    Shape {
        first: first_block(image, kind),
        size: size(edition, kind),
        capacity: capacity(edition, kind),
        count: count(image, kind),
    }
}

// The block in which the record at place i stands.
pub fn record_block(shape: Shape, i: usize) -> usize
    requires { Roomy shape × (record_block shape i < 2 ^ 63) }
    ensures { result ≡ record_block shape i }
{
    shape.first + i / shape.capacity
}

// Its place there.
pub fn record_slot(shape: Shape, i: usize) -> usize
    requires { Roomy shape }
    ensures { result ≡ record_slot shape i }
{
    i % shape.capacity
}

// i / 21. Below 65,536 one multiplication and a shift tell it: 21 · 199,729 is 2^22 + 5. A division by 21 is compiled to three times as many steps.
fn quotient_by_21(i: usize) -> usize
    ensures { result ≡ i / 21 }
{
    if i < 65536 {
        return i * 199729 / 4194304;
    }
    i / 21
}

// i / capacity. By the number of labels in a block, 21 or 10, a multiplication stands in place of the division: a search for a tag asks it at every step. A
// division of 32 bits is one instruction; the compiler puts a test and a second way around one of 64.
fn quotient(i: usize, capacity: usize) -> usize
    requires { (1 ≤ capacity) × (capacity ≤ 255) }
    ensures { result ≡ i / capacity }
{
    if capacity == 21 {
        return quotient_by_21(i);
    }
    if capacity == 10 {
        return i / 10;
    }
    if i < 4294967296 {
        let short = i as u32;
        let divisor = capacity as u32;
        return (short / divisor) as usize;
    }
    i / capacity
}

// Where it begins: after all records before it, and what each block before its own leaves unused. So there is one division and no remainder.
pub fn record_offset(shape: Shape, i: usize) -> usize
    requires { Roomy shape × (record_offset shape i < 2 ^ 63) }
    ensures { result ≡ record_offset shape i }
{
    let room = shape.size * shape.capacity;
    let gap = 512 - room;
    512 * shape.first + 4 + shape.size * i + gap * quotient(i, shape.capacity)
}

// The part of the image that starts at that record, which begins at `at`.
pub fn placed_part(image: &[u8], shape: Shape, kind: Kind, i: usize, at: usize) -> &[u8]
    requires { Fitted image.now × (Shaped image.now kind shape × ((i < count_of image.now kind) × (at ≡ record_offset shape i))) }
    ensures { (result.now ≡ record_at image.now kind i)
        × ((length result.now ≡ record_size (edition_of image.now) kind) × (record_size One kind ≤ length result.now)) }
{
    &image[at..at + shape.size]
}

// The same by the shape of its kind, which a search works out once.
pub fn shaped_part(image: &[u8], shape: Shape, kind: Kind, i: usize) -> &[u8]
    requires { Fitted image.now × (Shaped image.now kind shape × (i < count_of image.now kind)) }
    ensures { (result.now ≡ record_at image.now kind i)
        × ((length result.now ≡ record_size (edition_of image.now) kind) × (record_size One kind ≤ length result.now)) }
{
    placed_part(image, shape, kind, i, record_offset(shape, i))
}

// The part of the image that starts at that record.
pub fn record_part(image: &[u8], kind: Kind, i: usize) -> &[u8]
    requires { Fitted image.now × (i < count_of image.now kind) }
    ensures { (result.now ≡ record_at image.now kind i)
        × ((length result.now ≡ record_size (edition_of image.now) kind) × (record_size One kind ≤ length result.now)) }
{
    shaped_part(image, shape_of(image, kind), kind, i)
}

// Where the name of the component at place i among all components begins.
pub fn component_name_offset(image: &[u8], i: usize) -> usize
    requires { Fitted image.now × (i < layout.components image.now) }
    ensures { result ≡ component_name_offset image.now i }
{
    record_offset(shape_of(image, Kind::Component), i) + 2
}
