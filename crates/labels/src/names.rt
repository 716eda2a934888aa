// Names in a text: the component of a class that one matches. Small letters are taken as capitals.
ghost use Rattle.std.specs.Prelude.{◌≤◌, ◌<◌, ◌≡◌};
ghost use Rattle.header.specs.Layout.{Fitted, components, component_record};
ghost use Rattle.header.specs.Limits.{Counted};
ghost use Rattle.records.specs.Fields.{component_name};
ghost use Rattle.image.specs.Check.{IsAccepted};
ghost use Rattle.labels.specs.Parse.{matches, place_of_name};
ghost use Rattle.labels.specs.Lists.{found_of};
ghost use Rattle.labels.specs.Hints.{ToldOf};

use crate::hints::{Hints, name_number};
use fields::folded::same_folded;
use fields::names::Letters;
use header::layout;
use records::components;

// The place in its class of the component that the name matches; the class's count where none does.
pub fn place_of_name(image: &[u8], class: u8, name: &[u8]) -> usize
    requires { Counted image.now × ((1 ≤ class) × (class ≤ 3)) }
    ensures { result ≡ place_of_name image.now class name.now }
{
    let count = layout::class_count(image, class);
    let start = layout::class_first(image, class);
    components::first_named(image, start, start + count, Letters::Folded, name) - start
}

// The place, if the class has one.
pub fn find(image: &[u8], class: u8, name: &[u8]) -> Option<usize>
    requires { Counted image.now × ((1 ≤ class) × (class ≤ 3)) }
    ensures { result ≡ found_of image.now class name.now }
{
    let p = place_of_name(image, class, name);
    if p < layout::class_count(image, class) {
        Some(p)
    } else {
        None
    }
}

// Does the component at place i among all components have the name?
fn is_named(image: &[u8], i: usize, name: &[u8]) -> bool
    requires { Fitted image.now × (i < components image.now) }
    ensures { result ≡ matches (component_name (component_record image.now i)) name.now }
{
    same_folded(components::component_name(image, i), name)
}

// A place of the class at which the hints tell the name and the component has it. Where they tell none, nothing is known: the class may have the name.
fn hinted(image: &[u8], class: u8, hints: &Hints, name: &[u8]) -> Option<usize>
    requires { Counted image.now }
    ensures { ToldOf image.now class name.now result }
{
    let count = layout::class_count(image, class);
    let start = layout::class_first(image, class);
    let number = name_number(name);
    for place in &hints[number..number + 4] {
        let p = usize::from(*place);
        if p < count {
            if is_named(image, start + p, name) {
                return Some(p);
            }
        }
    }
    None
}

// The same as `find`. The names of a class differ, so that a component that has the name is the only one.
pub fn find_by(image: &[u8], class: u8, hints: &Hints, name: &[u8]) -> Option<usize>
    requires { IsAccepted image.now × ((1 ≤ class) × (class ≤ 3)) }
    ensures { result ≡ found_of image.now class name.now }
{
    let Some(p) = hinted(image, class, hints, name) else {
        return find(image, class, name);
    };
    Some(p)
}
