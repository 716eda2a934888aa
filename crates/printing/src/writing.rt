// Writing a label's text: its level's name, then its lists with places rising; empty tails are dropped.
ghost use Rattle.std.specs.Prelude.{◌+◌, ◌*◌, ◌≤◌, ◌<◌, ◌≡◌, true, length};
ghost use Rattle.image.specs.Check.{IsAccepted};
ghost use Rattle.image.specs.Lookup.{has_component};
ghost use Rattle.header.specs.Layout.{compartments, groups};
ghost use Rattle.sets.specs.Groups.{places_of};
ghost use Rattle.labels.specs.Label.{marks_of, label_exists};
ghost use Rattle.printing.specs.Print.{name_at, entry_at, listed, section, text_of, accepted_answer, Named};
ghost use Rattle.buffers.specs.Pasting.{Written};

use buffers::given::put;
use header::layout;
use image::lookup;
use labels::label::{Label, label_exists};
use records::components;
use refusals::Refusal;
use sets::groups::Groups;
use sets::word;

// The name of the component of that class at that place.
fn name_of<'a>(image: &'a [u8], class: u8, place: usize) -> &'a [u8]
    requires { IsAccepted image.now × (has_component image.now class place ≡ true) }
    ensures { (result.now ≡ name_at image.now class place) × (length result.now ≤ 30) }
{
    components::component_name(image, lookup::component_index(image, class, place))
}

// A colon and a list: the names of the places of a set, in a class of an accepted image that has so many components.
#[derive(Drop)]
struct Section<'a> {
    image: &'a [u8],
    class: u8,
    count: usize,
    set: Groups,
    ghost named: { Named image.now class count },
}

impl<'a> Section<'a> {
    fn compartments(image: &'a [u8], set: u64) -> Section<'a>
        requires { IsAccepted image.now }
        ensures { section result.image.now result.class result.count (places_of result.set) ≡ section image.now 2 (compartments image.now) set }
    {
        Section {
            image,
            class: 2,
            count: layout::compartments(image),
            set: Groups::of_word(set),
        }
    }

    fn groups(image: &'a [u8], set: Groups) -> Section<'a>
        requires { IsAccepted image.now }
        ensures { section result.image.now result.class result.count (places_of result.set) ≡ section image.now 3 (groups image.now) (places_of set) }
    {
        Section {
            image,
            class: 3,
            count: layout::groups(image),
            set,
        }
    }

    // How many bytes a place adds to the list: where the set has it, a comma and the component's name.
    fn entry_length(&self, place: usize) -> usize
        requires { place < self.now.count }
        ensures { (result ≡ length (entry_at self.now.image.now self.now.class (places_of self.now.set) place)) × (result ≤ 31) }
    {
        if !self.set.has(place) {
            return 0;
        }
        1 + name_of(self.image, self.class, place).len()
    }

    // How many bytes the names of the set's places need, with a comma before each.
    fn list_length(&self) -> usize
        ensures { (result ≡ length (listed self.now.image.now self.now.class (places_of self.now.set) self.now.count 0)) × (result ≤ 31 * self.now.count) }
    {
        let mut n = 0;
        for k in 0..self.count {
            n += self.entry_length(k);
        }
        n
    }

    // Writes what a place adds to the list.
    fn write_entry(&self, place: usize, buffer: &mut [u8], at: usize) -> usize
        requires placed { place < self.now.count }
        requires place_in_bounds { at + length (entry_at self.now.image.now self.now.class (places_of self.now.set) place) ≤ length buffer.old }
        ensures { Written buffer.old at (entry_at self.now.image.now self.now.class (places_of self.now.set) place) buffer.new result }
    {
        if !self.set.has(place) {
            return at;
        }
        let name = name_of(self.image, self.class, place);
        buffer[at] = b',';
        put(name, buffer, at + 1)
    }

    // Writes the names of the set's places with a comma before each.
    fn write_list(&self, buffer: &mut [u8], at: usize) -> usize
        requires { at + length (listed self.now.image.now self.now.class (places_of self.now.set) self.now.count 0) ≤ length buffer.old }
        ensures { Written buffer.old at (listed self.now.image.now self.now.class (places_of self.now.set) self.now.count 0) buffer.new result }
    {
        let mut end = at;
        for p in 0..self.count {
            end = self.write_entry(p, buffer, end);
        }
        end
    }

    // How many bytes it needs: the colon stands where the list has its first comma.
    fn length(&self) -> usize
        ensures { (result ≡ length (section self.now.image.now self.now.class self.now.count (places_of self.now.set))) × (result ≤ 7937) }
    {
        let n = self.list_length();
        if n == 0 {
            return 1;
        }
        n
    }

    fn write(&self, buffer: &mut [u8], at: usize) -> usize
        requires { at + length (section self.now.image.now self.now.class self.now.count (places_of self.now.set)) ≤ length buffer.old }
        ensures { Written buffer.old at (section self.now.image.now self.now.class self.now.count (places_of self.now.set)) buffer.new result }
    {
        let end = self.write_list(buffer, at);
        buffer[at] = b':';
        if end == at {
            return at + 1;
        }
        end
    }
}

// How many bytes the label's text needs.
fn text_length(image: &[u8], label: Label) -> usize
    requires { IsAccepted image.now × (label_exists image.now (marks_of label) ≡ true) }
    ensures { result ≡ length (text_of image.now (marks_of label)) }
{
    let level = name_of(image, 1, label.level as usize).len();
    if label.groups.is_empty() & word::is_empty(label.compartments) {
        return level;
    }
    let first = level + Section::compartments(image, label.compartments).length();
    if label.groups.is_empty() {
        return first;
    }
    first + Section::groups(image, label.groups).length()
}

// Writes the label's text to the front of the buffer, and tells its length.
fn write_text(image: &[u8], label: Label, buffer: &mut [u8]) -> usize
    requires accepted { IsAccepted image.now × (label_exists image.now (marks_of label) ≡ true) }
    requires label_in_bounds { length (text_of image.now (marks_of label)) ≤ length buffer.old }
    ensures { Written buffer.old 0 (text_of image.now (marks_of label)) buffer.new result }
{
    let name = name_of(image, 1, label.level as usize);
    let level = put(name, buffer, 0);
    if label.groups.is_empty() & word::is_empty(label.compartments) {
        return level;
    }
    let first = Section::compartments(image, label.compartments).write(buffer, level);
    if label.groups.is_empty() {
        return first;
    }
    Section::groups(image, label.groups).write(buffer, first)
}

// Prints a label where the image is known to be accepted. Refusals: 18, 13.
pub(crate) fn print_accepted(
    image: &[u8],
    label: Label,
    buffer: &mut [u8],
) -> Result<usize, Refusal>
    requires { IsAccepted image.now }
    ensures { (result, buffer.new) ≡ accepted_answer image.now (marks_of label) buffer.old }
{
    if !label_exists(image, label) {
        return Err(Refusal::NoComponent);
    }
    if buffer.len() < text_length(image, label) {
        return Err(Refusal::Room);
    }
    Ok(write_text(image, label, buffer))
}
