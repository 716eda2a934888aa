// A label in 48 bytes.
ghost use Rattle.std.specs.Prelude.{◌≡◌, length};
ghost use Rattle.sets.specs.Groups.{places_of};
ghost use Rattle.labels.specs.Label.{marks_of};
ghost use Rattle.encoding.specs.Labels.{set_bytes, label_bytes, label_in};

use fields::numbers::number8;
use header::edition::Edition;
use labels::label::Label;
use records::group_sets::group_set;
use sets::groups::Groups;

// The thirty-two bytes of a set of groups: its words, the lowest first.
fn set_bytes(groups: Groups) -> [u8; 32]
    ensures { result ≡ set_bytes (places_of groups) }
{
    let mut b = [0u8; 32];
    b[0..8].copy_from_slice(&groups.word(0).to_le_bytes());
    b[8..16].copy_from_slice(&groups.word(1).to_le_bytes());
    b[16..24].copy_from_slice(&groups.word(2).to_le_bytes());
    b[24..32].copy_from_slice(&groups.word(3).to_le_bytes());
    b
}

// Each byte of the label; the unused ones are zero. They read back as the label.
pub fn label_bytes(label: Label) -> [u8; 48]
    ensures { (result ≡ label_bytes (marks_of label)) × (label_in result ≡ marks_of label) }
{
    let mut b = [0u8; 48];
    b[4] = label.level;
    b[8..16].copy_from_slice(&label.compartments.to_le_bytes());
    b[16..48].copy_from_slice(&set_bytes(label.groups));
    b
}

// The label that the bytes hold.
pub fn label_in(bytes: &[u8]) -> Label
    requires { length bytes.now ≡ 48 }
    ensures { marks_of result ≡ label_in bytes.now }
{
    Label {
        level: bytes[4],
        compartments: number8(bytes, 8),
        groups: group_set(Edition::Two, bytes, 16),
    }
}
