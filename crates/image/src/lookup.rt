// Where a component's name stands, by class and place.
ghost use Rattle.std.specs.Prelude.{◌+◌, ◌<◌, ◌≡◌, true};
ghost use Rattle.header.specs.Layout.{components};
ghost use Rattle.header.specs.Limits.{Counted};
ghost use Rattle.image.specs.Lookup.{has_component, component_index, name_offset, name_length};

use header::layout;
use records::components;

pub fn has_component(image: &[u8], class: u8, place: usize) -> bool
    requires { Counted image.now }
    ensures { result ≡ has_component image.now class place }
{
    match class {
        1 => place < layout::levels(image),
        2 => place < layout::compartments(image),
        3 => place < layout::groups(image),
        _ => false,
    }
}

// The component's place among all components.
pub fn component_index(image: &[u8], class: u8, place: usize) -> usize
    requires { Counted image.now × (has_component image.now class place ≡ true) }
    ensures { (result ≡ component_index image.now class place) × (result < components image.now) }
{
    layout::class_first(image, class) + place
}

pub fn name_offset(image: &[u8], class: u8, place: usize) -> usize
    requires { Counted image.now × (has_component image.now class place ≡ true) }
    ensures { result ≡ name_offset image.now class place }
{
    layout::component_name_offset(image, component_index(image, class, place))
}

pub fn name_length(image: &[u8], class: u8, place: usize) -> usize
    requires { Counted image.now × (has_component image.now class place ≡ true) }
    ensures { result ≡ name_length image.now class place }
{
    components::name_length(image, component_index(image, class, place))
}
