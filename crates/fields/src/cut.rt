// A field, as it is cut off the front of a row of bytes.
#[derive(Clone, Copy)]
pub struct Cut<'a> {
    pub tag: u8,
    pub value: &'a [u8],
    // The bytes after the field.
    pub rest: &'a [u8],
}
