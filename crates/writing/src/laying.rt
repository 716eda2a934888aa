// An image laid out from records that are lent: header, components, labels, users.
ghost use Rattle.std.specs.Prelude.{◌+◌, ◌-◌, ◌*◌, ◌/◌, ◌≤◌, ◌<◌, ◌≡◌, length, take, drop};
ghost use Rattle.buffers.specs.Filling.{written_to};
ghost use Rattle.buffers.specs.Pasting.{Written};
ghost use Rattle.header.specs.declared.layout.Kind.TheVariants.{Component, Label, User};
ghost use Rattle.header.specs.Layout.{kind_byte, record_size, capacity_of, blocks_for};
ghost use Rattle.records.specs.Rules.{run_records};
ghost use Rattle.writing.specs.Laid.{block_of, kind_blocks, image_of, Fits, Limited};
ghost use Rattle.writing.specs.Lent.{bytes_in, lent_records};

use crate::block::{put_block, put_header};
use crate::lent::LentRecords;
use header::contents::lower;
use header::counts::Counts;
use header::edition::Edition;
use header::layout::{Kind, capacity, kind_byte, size};
use refusals::Refusal;

// How many blocks so many records of the kind need.
pub fn blocks_for(edition: Edition, kind: Kind, count: usize) -> usize
    requires { count < 131072 }
    ensures { (result ≡ blocks_for (capacity_of edition kind) count) × (result < 131092) }
{
    let held = capacity(edition, kind);
    (count + (held - 1)) / held
}

// How many bytes an image with so many records has: the header's block, and those of the three kinds.
pub fn length_for(edition: Edition, components: usize, labels: usize, users: usize) -> usize
    requires { (components < 131072) × ((labels < 131072) × (users < 131072)) }
    ensures { result ≡ 512 * (1 + blocks_for (capacity_of edition Component) components + blocks_for (capacity_of edition Label) labels + blocks_for (capacity_of edition User) users) }
{
    512 * (1
        + blocks_for(edition, Kind::Component, components)
        + blocks_for(edition, Kind::Label, labels)
        + blocks_for(edition, Kind::User, users))
}

// Writes the block at that place with the records from place `from` up to `to`.
fn put_run(
    edition: Edition,
    kind: Kind,
    place: usize,
    records: &[u8],
    from: usize,
    to: usize,
    buffer: &mut [u8],
    at: usize,
) -> usize
    requires from_le_to { (from ≤ to) × ((to ≤ length records.now / record_size edition kind) × (to ≤ from + capacity_of edition kind)) }
    requires place_bound { (place < 65536) × (at + 512 ≤ length buffer.old) }
    ensures { Written buffer.old at (block_of (kind_byte kind) place (take (to - from) (drop from (run_records (record_size edition kind) records.now)))) buffer.new result }
{
    let size = size(edition, kind);
    let count = (to - from) as u8;
    let first = size * from;
    let last = size * to;
    put_block(
        kind_byte(kind),
        count,
        place,
        &records[first..last],
        buffer,
        at,
    )
}

// Writes all blocks of the kind, the first of them at that place: in each but the last as many records as it holds.
fn put_kind(
    edition: Edition,
    kind: Kind,
    place: usize,
    records: &[u8],
    buffer: &mut [u8],
    at: usize,
) -> usize
    requires kind_bound { place + length records.now / record_size edition kind ≤ 65536 }
    requires kind_in_bounds { at + 512 * blocks_for (capacity_of edition kind) (length records.now / record_size edition kind) ≤ length buffer.old }
    ensures { Written buffer.old at (kind_blocks (kind_byte kind) (capacity_of edition kind) (blocks_for (capacity_of edition kind) (length records.now / record_size edition kind)) place (run_records (record_size edition kind) records.now)) buffer.new result }
{
    let held = capacity(edition, kind);
    let size = size(edition, kind);
    let count = records.len() / size;
    let mut end = at;
    let mut b = place;
    let mut from = 0;
    // No counted loop: the next turn begins after the records of the block.
    while from < count {
        let to = lower(count, from + held);
        end = put_run(edition, kind, b, records, from, to, buffer, end);
        b += 1;
        from = to;
    }
    end
}

// Writes the image. `counts` are those of what is lent.
fn put_image(counts: Counts, lent: LentRecords, buffer: &mut [u8]) -> usize
    requires fits { Fits counts (lent_records counts.edition (bytes_in lent)) }
    requires limited { Limited counts (length lent.users.now / record_size counts.edition User) (length lent.labels.now / record_size counts.edition Label) }
    requires users_in_bounds { length (image_of counts (lent_records counts.edition (bytes_in lent))) ≤ length buffer.old }
    ensures { Written buffer.old 0 (image_of counts (lent_records counts.edition (bytes_in lent.entry))) buffer.new result }
{
    let edition = counts.edition;
    let profile = counts.profile;
    let label_count = lent.labels.len() / size(edition, Kind::Label);
    let user_count = lent.users.len() / size(edition, Kind::User);
    let label_place = 1 + blocks_for(edition, Kind::Component, lent.components.len() / 40);
    let user_place = label_place + blocks_for(edition, Kind::Label, label_count);
    let levels = counts.levels as u8;
    let compartments = counts.compartments as u8;
    let head = put_header(
        edition,
        profile,
        levels,
        compartments,
        counts.groups,
        user_count,
        label_count,
        buffer,
        0,
    );
    let component_end = put_kind(edition, Kind::Component, 1, lent.components, buffer, head);
    let label_end = put_kind(
        edition,
        Kind::Label,
        label_place,
        lent.labels,
        buffer,
        component_end,
    );
    put_kind(
        edition,
        Kind::User,
        user_place,
        lent.users,
        buffer,
        label_end,
    )
}

// Refusal: 13.
pub(crate) fn write_image(
    counts: Counts,
    lent: LentRecords,
    buffer: &mut [u8],
) -> Result<usize, Refusal>
    requires fits { Fits counts (lent_records counts.edition (bytes_in lent)) }
    requires limited { Limited counts (length lent.users.now / record_size counts.edition User) (length lent.labels.now / record_size counts.edition Label) }
    ensures { (result, buffer.new) ≡ written_to buffer.old (image_of counts (lent_records counts.edition (bytes_in lent.entry))) }
{
    let edition = counts.edition;
    let label_count = lent.labels.len() / size(edition, Kind::Label);
    let user_count = lent.users.len() / size(edition, Kind::User);
    if buffer.len() < length_for(edition, lent.components.len() / 40, label_count, user_count) {
        return Err(Refusal::Room);
    }
    Ok(put_image(counts, lent, buffer))
}
