// The tags of which rows are handed out, found once for a whole table, so that a row is asked without the image.
ghost use Rattle.std.specs.Prelude.{◌≤◌, ◌<◌, ◌≡◌, true, length};
ghost use Rattle.rows.specs.Slots.{slot_count, own_slot, held_from, held, Added};

// 2,880 own slots, and as many after them as a search that begins at the last of these needs. They stand on the stack of a read or an update, which
// may take 16 KiB.
pub const COUNT: usize = 2976;

// An entry is a tag, or 0 where the slot is free: no label carries tag 0.
pub type Slots = [u32; COUNT];

// The tag's own slot. The last slots are nobody's own: with them a search for a tag needs no turn back to the first slot.
fn slot_of(tag: u32) -> usize
    ensures { (result ≡ own_slot tag) × (result < 2880) }
{
    ((tag as u64) * 2654435769 % 4294967296 * 2880 / 4294967296) as usize
}

// Is the tag in one of the 95 slots from `from` on, before a free one?
fn has_later(slots: &Slots, from: usize, tag: u32) -> bool
    requires { from ≤ 2880 }
    ensures { result ≡ held_from 95 slots.now from tag }
{
    for slot in from..from + 95 {
        let entry = slots[slot];
        if entry == 0 {
            return false;
        }
        if entry == tag {
            return true;
        }
    }
    false
}

// Is the tag held? Mostly its own slot tells.
pub fn has(slots: &Slots, tag: u32) -> bool
    ensures { result ≡ held slots.now tag }
{
    let slot = slot_of(tag);
    let entry = slots[slot];
    if entry == tag {
        return tag != 0;
    }
    if entry == 0 {
        return false;
    }
    has_later(slots, slot + 1, tag)
}

// Puts the tag in the first free slot of the 96 from its own on. No where none of them is free; nothing is claimed of a no, which costs speed alone.
pub fn add(slots: &mut Slots, tag: u32) -> bool
    requires { (0 < tag) × (length slots.old ≡ slot_count) }
    ensures { result ≡ true → Added tag slots.old slots.new }
{
    let own = slot_of(tag);
    for slot in own..own + 96 {
        if slots[slot] == 0 {
            slots[slot] = tag;
            return true;
        }
    }
    false
}
