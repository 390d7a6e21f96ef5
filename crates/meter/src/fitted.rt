// A fitted meter: it takes keys. There is no entry here, so a slip cannot be keyed into one.
ghost use Rattle.std.specs.Prelude.{◌≡◌};
ghost use Rattle.meter.specs.Meters.{fitted_with, with_cipher, with_authenticator, in_service};

use crate::parts::Parts;
use crate::service::Meter;
use authenticator::Authenticator;
use cipher::Cipher;
use sealing::sealer::Sealer;
use sealing::settings::Settings;

#[derive(Drop)]
pub struct FittedMeter<S, C, A> {
    parts: Parts<S, C, A>,
}

impl<S, C, A> FittedMeter<S, C, A> {
    // Settings, cipher and authenticator one by one, as a fitter brings them; from here on they are one sealer.
    pub fn fit(settings: Settings, store: S, cipher: C, authenticator: A) -> FittedMeter<S, C, A>
        ensures { result ≡ fitted_with settings store cipher authenticator }
    {
        FittedMeter {
            parts: Parts {
                sealer: Sealer {
                    settings,
                    cipher,
                    authenticator,
                },
                store,
            },
        }
    }

    // From now on the meter takes entries, and no keys.
    pub fn into_service(self) -> Meter<S, C, A>
        ensures { result ≡ in_service self.parts }
    {
        let FittedMeter { parts } = self;
        Meter::new(parts)
    }

    // The parts again, as they are.
    pub fn into_parts(self) -> Parts<S, C, A>
        ensures { result ≡ self.parts }
    {
        let FittedMeter { parts } = self;
        parts
    }
}

// A key lets the old cipher or authenticator go, so these are of types that may be let go.
impl<S, C: Cipher + Drop, A: Authenticator + Drop> FittedMeter<S, C, A> {
    // Replaces the cipher by the one of its kind for the key and this MeterID.
    pub fn take_cipher_key(&mut self, key: &[u8; 16])
        ensures { self.new ≡ with_cipher self.old (C.keyed key.now self.old.parts.sealer.settings.meter) }
    {
        self.parts.sealer.take_cipher_key(key);
    }

    // Replaces the authenticator by the one of its kind for the key and this MeterID.
    pub fn take_authenticator_key(&mut self, key: &[u8; 16])
        ensures { self.new ≡ with_authenticator self.old (A.keyed key.now self.old.parts.sealer.settings.meter) }
    {
        self.parts.sealer.take_authenticator_key(key);
    }
}
