// The bench seal: the sum of all bytes of nonce and message.
ghost use Rattle.std.specs.Prelude.{◌≡◌, ℕ, ◌*◌, ◌≤◌, length, take, sum};
ghost use Rattle.authenticator.specs.Sum.{byte_sum, byte_sum_for};
ghost use Rattle.authenticator.specs.SumLaws.{byte_sum_sixteen, byte_sum_bytes};

use crate::Authenticator;

// Adds up bytes, whatever the key. For benches and tests: anyone can compute it.
#[derive(Clone, Copy)]
pub struct ByteSum;

// The bytes of a message that count, its first 64.
pub fn counting_part(message: &[u8]) -> &[u8]
    ensures part { result.now ≡ take 64 message.now }
    ensures bound { length result.now ≤ 64 }
{
    &message[..message.len().min(64)]
}

// The sum of a few bytes.
// A loop over the elements, and no iterator's sum: the project requires this form of the byte sum.
fn sum_of(bytes: &[u8]) -> u32
    requires { length bytes.now ≤ 64 }
    ensures value { result ≡ sum bytes.now }
    ensures bound { result ≤ 255 * length bytes.now }
{
    let mut total = 0;
    for b in bytes {
        total += u32::from(*b);
    }
    total
}

impl Authenticator for ByteSum {
    ghost tagged = { byte_sum };

    ghost keyed = { byte_sum_for };

    ghost sixteen = { byte_sum_sixteen };

    ghost bytes = { byte_sum_bytes };

    #[tactic(auto, unfolding(crate::specs::Sum::byte_sum))]
    fn tag(&self, nonce: &[u8; 12], message: &[u8]) -> [u8; 16] {
        let [a, b, c, d] = (sum_of(nonce) + sum_of(counting_part(message))).to_be_bytes();
        [a, b, c, d, 0, 0, 0, 0, 0, 0, 0, 0, 0, 0, 0, 0]
    }

    fn keyed(_key: &[u8; 16], _meter: u64) -> ByteSum {
        ByteSum
    }
}
