// What is asked of a meter in service, and a line on which a call is noted.

// Digits keyed in, of any bytes.
#[derive(Drop)]
pub struct Entry {
    pub text: Vec<u8>,
}

// Power used, in minor units.
#[derive(Clone, Copy)]
pub struct Usage {
    pub amount: u32,
}

// A call, what was answered, and the writes that the meter's store had left afterwards. A journal of calls at a meter alone and one
// of calls at a till too are of such lines, each of its own calls and answers.
#[derive(Drop)]
pub struct Line<C, A> {
    pub call: C,
    pub answer: A,
    pub writes: u32,
}
