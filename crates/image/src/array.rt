// Items of a slice whose length is known, as an array.
ghost use Rattle.std.specs.Prelude.{◌≡◌, length};

// The same items.
pub(crate) fn array<T: Copy, const N: usize>(items: &[T]) -> [T; N]
    requires { length items.now ≡ N }
    ensures { result ≡ items.now }
{
    items.try_into().unwrap()
}
