// What every call answers when it does not do what was asked: one case for each number of the scope
// document's table "Numbers given back", in the table's order, with 31 to 35 of request R-2 in place of 3, 20 of
// request R-4, 36 of request R-12 and 37 of request R-11. A case holds what the papers say is returned with the number, and nothing else.

#![tactic(auto)]

ghost use Rattle.std.specs.Prelude.{◌≡◌};
ghost use Rattle.refusals.specs.Refusals.{number_of, packed_place, place_of};

#[derive(Clone, Copy)]
pub enum Refusal {
    // 1: the image's length is 0, not a multiple of 512, or over 65,536.
    ImageLength,
    // 2: a block's check or place is wrong; the lowest such block.
    BlockCheck(usize),
    // 31: the header, a length unfit for its counts, or a block's kind, record count or bytes outside records.
    ImageLayout,
    // 32, 33, 34: a component, label or user record breaks a rule; its block, and its place there.
    ComponentRecord(u16, u16),
    LabelRecord(u16, u16),
    UserRecord(u16, u16),
    // 35: the parents of a group never end; the lowest such group.
    ParentRing(usize),
    // 4: no user of that name.
    NoUser,
    // 5: the text does not have the shape of a label's text.
    TextShape,
    // 6: a name is not in its class; the name's offset in the text.
    UnknownName(usize),
    // 7: a name came before in its list; the name's offset in the text.
    RepeatedName(usize),
    // 8, 9, 10: the label asks for a level, compartments or groups that the user is not allowed.
    LevelNotAllowed,
    CompartmentsNotAllowed,
    GroupsNotAllowed,
    // 11: the row label would stand outside the new write sets or above the new level.
    RowLabelOutside,
    // 12: the width is not 5..512, or the table's length is not a multiple of it.
    TableShape,
    // 13: the result is longer than the buffer lent for it.
    Room,
    // 14: no row n.
    NoRow,
    // 15: row n is not writable.
    RowNotWritable,
    // 16: the payload's length is not the width minus 4.
    PayloadLength,
    // 17: the merge letters are not three of those allowed.
    MergeLetters,
    // 18: a lent label, or a class and place, names a component that the policy lacks.
    NoComponent,
    // 19: a lent session breaks its rules for that image.
    SessionRules,
    // 20: a lent map is not that of the image and session.
    WrongMap,
    // 36: a move up of an image whose users hold COMPACCESS; how many of them do.
    CompaccessHolders(usize),
    // 37: a move up of over 800 labels or 32 users.
    MoveLimits,
}

// The refusal's number in the table.
pub fn number(r: Refusal) -> u8
    ensures { result ≡ number_of r }
{
    match r {
        Refusal::ImageLength => 1,
        Refusal::BlockCheck(_) => 2,
        Refusal::ImageLayout => 31,
        Refusal::ComponentRecord(_, _) => 32,
        Refusal::LabelRecord(_, _) => 33,
        Refusal::UserRecord(_, _) => 34,
        Refusal::ParentRing(_) => 35,
        Refusal::NoUser => 4,
        Refusal::TextShape => 5,
        Refusal::UnknownName(_) => 6,
        Refusal::RepeatedName(_) => 7,
        Refusal::LevelNotAllowed => 8,
        Refusal::CompartmentsNotAllowed => 9,
        Refusal::GroupsNotAllowed => 10,
        Refusal::RowLabelOutside => 11,
        Refusal::TableShape => 12,
        Refusal::Room => 13,
        Refusal::NoRow => 14,
        Refusal::RowNotWritable => 15,
        Refusal::PayloadLength => 16,
        Refusal::MergeLetters => 17,
        Refusal::NoComponent => 18,
        Refusal::SessionRules => 19,
        Refusal::WrongMap => 20,
        Refusal::CompaccessHolders(_) => 36,
        Refusal::MoveLimits => 37,
    }
}

// A record's block and its place there, in one number.
fn packed(block: u16, slot: u16) -> usize
    ensures { result ≡ packed_place block slot }
{
    block as usize * 65536 + slot as usize
}

// What is returned with the number, in one number; 0 where nothing is.
pub fn place(r: Refusal) -> usize
    ensures { result ≡ place_of r }
{
    match r {
        Refusal::BlockCheck(block) => block,
        Refusal::ComponentRecord(block, slot) => packed(block, slot),
        Refusal::LabelRecord(block, slot) => packed(block, slot),
        Refusal::UserRecord(block, slot) => packed(block, slot),
        Refusal::ParentRing(group) => group,
        Refusal::UnknownName(offset) => offset,
        Refusal::RepeatedName(offset) => offset,
        Refusal::CompaccessHolders(count) => count,
        _ => 0,
    }
}
