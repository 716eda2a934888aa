// The parts of a merge, each by its letter.
ghost use Rattle.std.specs.Prelude.{◌≡◌, ℕ, length};
ghost use Rattle.sets.specs.Sets as sets;
ghost use Rattle.sets.specs.Groups.{places_of};
ghost use Rattle.labels.specs.Label.{marks_of};
ghost use Rattle.dominance.specs.TwoLabels.{letters_rule, merge_levels, merge_sets, merged_label, level_letter, set_letter};

use labels::label::Label;
use sets::groups::Groups;
use sets::word;

fn level_letter(letter: u8) -> bool
    ensures { result ≡ level_letter letter }
{
    matches!(letter, b'H' | b'L')
}

fn set_letter(letter: u8) -> bool
    ensures { result ≡ set_letter letter }
{
    matches!(letter, b'U' | b'I' | b'M' | b'N')
}

#[tactic(auto, unfolding(crate::specs::TwoLabels::letters_rule))]
pub fn letters_ok(letters: &[u8]) -> bool
    ensures { result ≡ letters_rule letters.now }
{
    let &[level, compartments, groups] = letters else {
        return false;
    };
    level_letter(level) & set_letter(compartments) & set_letter(groups)
}

// H the higher, L the lower.
#[tactic(auto, unfolding(crate::specs::TwoLabels::merge_levels))]
fn merge_levels(letter: u8, level1: u8, level2: u8) -> u8
    ensures { result ≡ merge_levels letter level1 level2 }
{
    if letter == b'H' {
        level1.max(level2)
    } else {
        level1.min(level2)
    }
}

// What a merge does with a set, of compartments or of groups.
trait Places {
    ghost places: { Self → ℕ };

    fn none() -> Self
        ensures { places result ≡ sets.none };

    fn union(self, other: Self) -> Self
        ensures { places result ≡ sets.union (places self) (places other) };

    fn intersection(self, other: Self) -> Self
        ensures { places result ≡ sets.intersection (places self) (places other) };

    fn difference(self, other: Self) -> Self
        ensures { places result ≡ sets.difference (places self) (places other) };
}

impl Places for u64 {
    ghost places = { λ set. set };

    fn none() -> u64 {
        0
    }

    fn union(self, other: u64) -> u64 {
        word::union(self, other)
    }

    fn intersection(self, other: u64) -> u64 {
        word::intersection(self, other)
    }

    fn difference(self, other: u64) -> u64 {
        word::difference(self, other)
    }
}

impl Places for Groups {
    ghost places = { places_of };

    fn none() -> Groups {
        Groups::none()
    }

    fn union(self, other: Groups) -> Groups {
        Groups::union(self, other)
    }

    fn intersection(self, other: Groups) -> Groups {
        Groups::intersection(self, other)
    }

    fn difference(self, other: Groups) -> Groups {
        Groups::difference(self, other)
    }
}

// U union, I intersection, M the first without the second, N none.
#[tactic(auto, unfolding(crate::specs::TwoLabels::merge_sets))]
fn merge_sets<S: Places + Copy>(letter: u8, set1: S, set2: S) -> S
    ensures { S.places result ≡ merge_sets letter (S.places set1) (S.places set2) }
{
    match letter {
        b'U' => set1.union(set2),
        b'I' => set1.intersection(set2),
        b'M' => set1.difference(set2),
        _ => S::none(),
    }
}

#[tactic(auto, unfolding(crate::specs::TwoLabels::merged_label))]
pub fn merged_label(label1: Label, label2: Label, letters: &[u8]) -> Label
    requires { length letters.now ≡ 3 }
    ensures { marks_of result ≡ merged_label (marks_of label1) (marks_of label2) letters.now }
{
    Label {
        level: merge_levels(letters[0], label1.level, label2.level),
        compartments: merge_sets(letters[1], label1.compartments, label2.compartments),
        groups: merge_sets(letters[2], label1.groups, label2.groups),
    }
}
