// What a meter is made of. It holds its store by value.
use sealing::sealer::Sealer;

#[derive(Drop)]
pub struct Parts<S, C, A> {
    pub sealer: Sealer<C, A>,
    pub store: S,
}
