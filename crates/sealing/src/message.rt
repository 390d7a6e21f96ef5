// Nonce and message of a slip, byte by byte.
ghost use Rattle.std.specs.Prelude.{◌≡◌, ◌+◌, ◌*◌, ◌≤◌, ◌++◌, length};
ghost use Rattle.arrayvec.specs.ArrayVec.{array_vec_len};
ghost use Rattle.sealing.specs.Messages.{nonce, head, message};

use crate::settings::Settings;
use arrayvec::ArrayVec;
use token::first::FirstBlock;

// The origin that every token names.
const ORIGIN: u8 = 1;

// At most 51 bytes: the head and three further blocks.
pub(crate) type Message = ArrayVec<u8, 51>;

// Appends bytes, for which there is room.
fn append(message: &mut Message, more: &[u8])
    requires { array_vec_len message.old + length more.now ≤ 51 }
    ensures value { message.new.items ≡ message.old.items ++ more.now }
    ensures len { array_vec_len message.new ≡ array_vec_len message.old + length more.now }
{
    message.try_extend_from_slice(more).unwrap();
}

pub(crate) fn nonce_for(settings: &Settings, number: u32) -> [u8; 12]
    ensures { result ≡ nonce settings.now number }
{
    let [a, b, c, d, e, f, g, h] = settings.supplier.to_be_bytes();
    let [i, j, k, l] = number.to_be_bytes();
    [a, b, c, d, e, f, g, h, i, j, k, l]
}

// The message up to the further blocks.
fn head_of(settings: &Settings, number: u32, index: u32, first: FirstBlock) -> Message
    ensures value { result.items ≡ head settings.now number index first }
    ensures len { array_vec_len result ≡ 27 }
{
    let mut message = Message::new();
    append(&mut message, &settings.supplier.to_be_bytes());
    append(&mut message, &settings.meter.to_be_bytes());
    append(&mut message, &[ORIGIN]);
    append(&mut message, &number.to_be_bytes());
    let [_, _, high, low] = index.to_be_bytes();
    append(&mut message, &[high, low]);
    append(&mut message, &[first.subclass, first.config]);
    append(&mut message, &first.amt.to_be_bytes());
    message
}

// The message of a slip in clear, for a number and the function index that goes into it.
pub(crate) fn message_of(
    settings: &Settings,
    number: u32,
    index: u32,
    first: &FirstBlock,
    further: &[u64],
) -> Message
    requires { length further.now ≤ 3 }
    ensures { result.items ≡ message settings.now number index first.now further.now }
{
    let mut message = head_of(settings, number, index, *first);
    for block in further {
        append(&mut message, &block.to_be_bytes());
    }
    message
}
