// A list of at most so many numbers of 64 bits that is copied as a whole.
#![tactic(auto)]

ghost use Rattle.std.specs.Prelude.{◌≡◌, ◌≤◌, [], ◌∷◌, ◌++◌, take, length, slice_set};

use arrayvec::ArrayVec;
use std::marker::Model;

#[derive(Clone, Copy)]
pub struct Words<const MOST: usize> {
    words: [u64; MOST],
    // How many of them are in the list; those behind it are zero, so that equal lists are the same value.
    count: usize,
}

impl<const MOST: usize> Model for Words<MOST> {
    ghost use Rattle.std.specs.Prelude.{ℕ, ◌-◌, ◌++◌, length, take, replicate};
    ghost use Rattle.std.specs.Coded.{coded_ℕ};
    ghost use Rattle.arrayvec.specs.ArrayVec.{ArrayVec as Items, array_vec_code};
    ghost use Rattle.words.specs.Listing.{Kept, whole};

    ghost Value = { Items ℕ };

    ghost coded = { array_vec_code coded_ℕ };

    ghost view = { λ w. record { items = take w.count w.words } };

    ghost invariant = { λ w. Kept MOST w.count w.words };

    ghost inverse = { λ w. record { words = w.items ++ replicate (MOST - length w.items) 0; count = length w.items } };

    ghost inverse_ok = { λ w kept i. record { words = whole MOST w.count w.words kept i; count = kept.used i } };
}

// Filled and written in place: an entry whose blocks went by way of an ArrayVec cost up to 1.3 times the instructions.
impl<const MOST: usize> Words<MOST> {
    pub fn new() -> Words<MOST>
        ensures { result ≡ record { items = [] } }
    {
        Words {
            words: [0; MOST],
            count: 0,
        }
    }

    // One more at the end. A number for which there is no place is left out.
    pub fn push(&mut self, n: u64)
        ensures { self.new.items ≡ take MOST (self.old.items ++ n ∷ []) }
    {
        if self.count < MOST {
            self.words[self.count] = n;
            self.count += 1;
        }
    }

    // Another number at a place. Where the list has none there, it stays as it is.
    pub fn set(&mut self, place: usize, n: u64)
        ensures { self.new.items ≡ slice_set self.old.items place n }
    {
        if place < self.count {
            self.words[place] = n;
        }
    }

    // The numbers at the beginning of a slice, as many as there are places for.
    pub fn leading(numbers: &[u64]) -> Words<MOST>
        ensures { result.items ≡ take MOST numbers.now }
    {
        let mut words = Words::new();
        for n in numbers {
            words.push(*n);
        }
        words
    }

    pub fn as_slice(&self) -> &[u64]
        ensures value { result.now ≡ self.now.items }
        ensures fits { length result.now ≤ MOST }
    {
        &self.words[..self.count]
    }
}

// From a list that a function of a slice has written over: a Words lends its numbers for reading alone.
impl<const MOST: usize> From<ArrayVec<u64, MOST>> for Words<MOST> {
    ghost from_gives = { λ list words. words ≡ list };

    fn from(list: ArrayVec<u64, MOST>) -> Words<MOST> {
        let mut words = [0; MOST];
        words[..list.len()].copy_from_slice(&list);
        Words {
            words,
            count: list.len(),
        }
    }
}

// And back, to be written over by one.
impl<const MOST: usize> From<Words<MOST>> for ArrayVec<u64, MOST> {
    ghost from_gives = { λ words list. list ≡ words };

    fn from(words: Words<MOST>) -> ArrayVec<u64, MOST> {
        // As many as Words has fit into an ArrayVec of the same capacity.
        ArrayVec::try_from(words.as_slice()).unwrap()
    }
}
