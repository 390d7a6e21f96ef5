// How many of a list of vectors agree.
ghost use Rattle.std.specs.Prelude.{◌≡◌, Bool, count_by};

// A value to be compared.
pub(crate) trait Vector {
    // Whether the definitions come to the value.
    ghost right: { Self → Bool };

    fn agrees(&self) -> bool
        ensures { result ≡ right self.now };
}

pub(crate) fn agreeing<V: Vector>(vectors: &[V]) -> usize
    ensures { result ≡ count_by V.right vectors.now }
{
    vectors.iter().filter(|v| v.agrees()).count()
}
