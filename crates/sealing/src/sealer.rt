// What a till and its meter hold alike: the settings, and the cipher and authenticator that make and read a slip by them.
ghost use Rattle.std.specs.Prelude.{◌≡◌, ℕ};
ghost use Rattle.sealing.specs.Suites.{with_cipher, with_authenticator};

use crate::settings::Settings;
use authenticator::Authenticator;
use cipher::Cipher;

#[derive(Drop)]
pub struct Sealer<C, A> {
    pub settings: Settings,
    pub cipher: C,
    pub authenticator: A,
}

// A key lets the old cipher or authenticator go, so these are of types that may be let go. A cipher is keyed apart from an
// authenticator, and by another trait, so there are two methods.
impl<C: Cipher + Drop, A: Authenticator + Drop> Sealer<C, A> {
    // Replaces the cipher by the one of its kind for the key and this MeterID.
    pub fn take_cipher_key(&mut self, key: &[u8; 16])
        ensures { self.new ≡ with_cipher self.old (C.keyed key.now self.old.settings.meter) }
    {
        self.cipher = C::keyed(key, self.settings.meter);
    }

    // Replaces the authenticator by the one of its kind for the key and this MeterID.
    pub fn take_authenticator_key(&mut self, key: &[u8; 16])
        ensures { self.new ≡ with_authenticator self.old (A.keyed key.now self.old.settings.meter) }
    {
        self.authenticator = A::keyed(key, self.settings.meter);
    }
}
