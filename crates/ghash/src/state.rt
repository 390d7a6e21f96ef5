// A hash key and what is computed from it once.
ghost use Rattle.std.specs.Prelude.{◌≡◌};
ghost use Rattle.ghash.specs.Products.{products_of};

#[derive(Clone, Copy)]
pub struct HashKey {
    pub(crate) key: u128,
    // The products of the key with the values of four bits.
    pub(crate) products: [u128; 16],
    ghost kept: { products ≡ products_of key },
}
