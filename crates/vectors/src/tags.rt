// Tags of messages.
ghost use Rattle.std.specs.Prelude.{◌≡◌, take};
ghost use Rattle.spelling.specs.Spelling.{bytes_of};
ghost use Rattle.chaining.specs.Blocks.{block_of};
ghost use Rattle.vectors.specs.Right.{right_message, right_gmac, right_tags};

use crate::agreeing::Vector;
use authenticator::Authenticator;
use chaining::block_of;
use cmac::Cmac;
use gmac::Gmac;

// CMAC of a message alone.
#[derive(Clone, Copy)]
pub(crate) struct MessageVector {
    pub(crate) key: u128,
    pub(crate) message: &'static [u8],
    pub(crate) tag: u128,
}

// GMAC of a nonce and a message.
#[derive(Clone, Copy)]
pub(crate) struct GmacVector {
    pub(crate) key: u128,
    pub(crate) nonce: &'static [u8; 12],
    pub(crate) message: &'static [u8],
    pub(crate) tag: u128,
}

// Both authenticators on a nonce and a message.
#[derive(Clone, Copy)]
pub(crate) struct TagVector {
    pub(crate) key: u128,
    pub(crate) nonce: &'static [u8; 12],
    pub(crate) message: &'static [u8],
    pub(crate) gmac: u128,
    pub(crate) cmac: u128,
}

// The tag that an authenticator for a key gives, as a number.
fn tag_of<A: Authenticator + Drop>(key: u128, nonce: &[u8; 12], message: &[u8]) -> u128
    ensures { result ≡ block_of (A.tagged (A.keyed (bytes_of 16 key) 0) nonce.now (take 64 message.now)) }
{
    block_of(&A::keyed(&key.to_be_bytes(), 0).tag(nonce, message))
}

impl Vector for MessageVector {
    ghost right = { right_message };

    fn agrees(&self) -> bool {
        let mac = Cmac::keyed(&self.key.to_be_bytes(), 0);
        block_of(&mac.mac(self.message)) == self.tag
    }
}

impl Vector for GmacVector {
    ghost right = { right_gmac };

    fn agrees(&self) -> bool {
        tag_of::<Gmac>(self.key, self.nonce, self.message) == self.tag
    }
}

impl Vector for TagVector {
    ghost right = { right_tags };

    fn agrees(&self) -> bool {
        let gmac = tag_of::<Gmac>(self.key, self.nonce, self.message);
        let cmac = tag_of::<Cmac>(self.key, self.nonce, self.message);
        gmac == self.gmac && cmac == self.cmac
    }
}
