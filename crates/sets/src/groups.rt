// A set of groups. Only this file knows how the places are kept: every contract speaks of them
// through `places_of`, so that the type can hold more places without a change above it.
ghost use Rattle.std.specs.Prelude.{◌≡◌, ℕ, ◌*◌, ◌<◌, ◌≤◌, [], ◌∷◌, eqb, set};
ghost use Rattle.sets.specs.Sets as sets;
ghost use Rattle.sets.specs.Sets.{one, all_below, Lowest};
ghost use Rattle.sets.specs.Words.{word_of, joined};
ghost use Rattle.sets.specs.Groups.{places_of, words_in, by_words, at_place, width};

use crate::word;

// The words are fields and no array: the theorem `places-below` holds of every value of the type, and of an array a value's length is not known.
#[derive(Clone, Copy, PartialEq, Eq)]
pub struct Groups {
    w0: u64,
    w1: u64,
    w2: u64,
    w3: u64,
}

impl Groups {
    pub fn none() -> Self
        ensures { places_of result ≡ sets.none }
    {
        Self::of_words(0, 0, 0, 0)
    }

    // The set whose words are those, the lowest first.
    pub fn of_words(w0: u64, w1: u64, w2: u64, w3: u64) -> Self
        ensures { places_of result ≡ joined (w0 ∷ w1 ∷ w2 ∷ w3 ∷ []) }
    {
        Self { w0, w1, w2, w3 }
    }

    // The set whose places are below 64 and are the bits of w.
    pub fn of_word(w: u64) -> Self
        ensures { places_of result ≡ w }
    {
        Self::of_words(w, 0, 0, 0)
    }

    // The k-th 64 places, moved down to 0..63.
    pub fn word(self, k: usize) -> u64
        ensures { result ≡ word_of (places_of self) k }
    {
        match k {
            0 => self.w0,
            1 => self.w1,
            2 => self.w2,
            3 => self.w3,
            _ => 0,
        }
    }

    // The set with w as its k-th word.
    fn replaced(self, k: usize, w: u64) -> Self
        requires { 64 * k < width }
        ensures { places_of result ≡ joined (set (words_in self) k w) }
    {
        match k {
            0 => Self { w0: w, ..self },
            1 => Self { w1: w, ..self },
            2 => Self { w2: w, ..self },
            _ => Self { w3: w, ..self },
        }
    }

    pub fn all_below(n: usize) -> Self
        requires { n ≤ width }
        ensures { places_of result ≡ all_below n }
    {
        Self::of_words(
            word::all_below_from(n, 0),
            word::all_below_from(n, 64),
            word::all_below_from(n, 128),
            word::all_below_from(n, 192),
        )
    }

    // Is p in the set? Most images have at most 64 groups: these take the short way.
    pub fn has(self, p: usize) -> bool
        ensures { result ≡ sets.has (places_of self) p }
    {
        if p < 64 {
            return word::has(self.w0, p);
        }
        word::has(self.word(p / 64), p % 64)
    }

    // The set with what op makes of the word of place p and the place in it. A place below 64 takes the short way, as in `has`.
    fn at_place<F: Fn(u64, usize) -> u64>(self, p: usize, op: F) -> Self
        requires place { p < width }
        requires calls { (w q : ℕ) → q < 64 → F.pre op w q }
        ensures { (f : ℕ → ℕ → ℕ) → ((w q r : ℕ) → F.post op w q r → r ≡ f w q) → places_of result ≡ at_place f self p }
    {
        if p < 64 {
            return Self {
                w0: op(self.w0, p),
                ..self
            };
        }
        let k = p / 64;
        self.replaced(k, op(self.word(k), p % 64))
    }

    // The set and the place p.
    pub fn with(self, p: usize) -> Self
        requires { p < width }
        ensures { places_of result ≡ sets.union (places_of self) (one p) }
    {
        self.at_place(p, word::with)
    }

    pub fn is_empty(self) -> bool
        ensures { result ≡ sets.empty (places_of self) }
    {
        word::is_empty(self.w0)
            & word::is_empty(self.w1)
            & word::is_empty(self.w2)
            & word::is_empty(self.w3)
    }

    // Have both sets the same places?
    pub fn same(self, other: Groups) -> bool
        ensures { result ≡ eqb (places_of self) (places_of other) }
    {
        self == other
    }

    // Is every place in `other`?
    pub fn within(self, other: Groups) -> bool
        ensures { result ≡ sets.within (places_of self) (places_of other) }
    {
        self.intersection(other).same(self)
    }

    // Is some place in `other`?
    pub fn meets(self, other: Groups) -> bool
        ensures { result ≡ sets.meets (places_of self) (places_of other) }
    {
        word::meets(self.w0, other.w0)
            | word::meets(self.w1, other.w1)
            | word::meets(self.w2, other.w2)
            | word::meets(self.w3, other.w3)
    }

    // The set whose words the operation gives, each of one word of both sets.
    fn by_words<F: Fn(u64, u64) -> u64>(self, other: Groups, op: F) -> Self
        requires { F.IsAlwaysCallable op }
        ensures { (f : ℕ → ℕ → ℕ) → ((x y r : ℕ) → F.post op x y r → r ≡ f x y) → places_of result ≡ by_words f self other }
    {
        Self::of_words(
            op(self.w0, other.w0),
            op(self.w1, other.w1),
            op(self.w2, other.w2),
            op(self.w3, other.w3),
        )
    }

    pub fn union(self, other: Groups) -> Self
        ensures { places_of result ≡ sets.union (places_of self) (places_of other) }
    {
        self.by_words(other, word::union)
    }

    pub fn intersection(self, other: Groups) -> Self
        ensures { places_of result ≡ sets.intersection (places_of self) (places_of other) }
    {
        self.by_words(other, word::intersection)
    }

    // The places that are not in `other`.
    pub fn difference(self, other: Groups) -> Self
        ensures { places_of result ≡ sets.difference (places_of self) (places_of other) }
    {
        self.by_words(other, word::difference)
    }

    // The set but for the place p.
    pub fn without(self, p: usize) -> Self
        requires { p < width }
        ensures { places_of result ≡ sets.difference (places_of self) (one p) }
    {
        self.at_place(p, word::without)
    }

    // The lowest place of the set; `width` where the set is empty.
    pub fn first(self) -> usize
        ensures { Lowest width (places_of self) result }
    {
        if self.w0 != 0 {
            return word::first(self.w0);
        }
        if self.w1 != 0 {
            return 64 + word::first(self.w1);
        }
        if self.w2 != 0 {
            return 128 + word::first(self.w2);
        }
        192 + word::first(self.w3)
    }
}
