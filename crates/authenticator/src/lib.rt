// Authenticators: a tag of sixteen bytes for a nonce of twelve bytes and a message of up to 64.
#![tactic(auto)]

ghost use Rattle.std.specs.Prelude.{◌≡◌, ℕ, List, length, take};
ghost use Rattle.std.specs.Int.Digits.{AllBelowBase};

pub mod byte_sum;

pub trait Authenticator {
    // The tag of a nonce and a message of at most 64 bytes.
    ghost tagged: { Self → List ℕ → List ℕ → List ℕ };

    // The authenticator of this kind for a key of sixteen bytes and a MeterID.
    ghost keyed: { List ℕ → ℕ → Self };

    // A longer message counts as its first 64 bytes.
    fn tag(&self, nonce: &[u8; 12], message: &[u8]) -> [u8; 16]
        ensures { result ≡ tagged self.now nonce.now (take 64 message.now) };

    // One of this kind, for a key and a MeterID.
    fn keyed(key: &[u8; 16], meter: u64) -> Self
        ensures { result ≡ keyed key.now meter };

    ghost sixteen: { (a : Self) (nonce message : List ℕ) → length (tagged a nonce message) ≡ 16 };

    ghost bytes: { (a : Self) (nonce message : List ℕ) → AllBelowBase 256 (tagged a nonce message) };
}
