// The fields of an image.
ghost use Rattle.std.specs.Prelude.{◌≡◌, length, IfSome};
ghost use Rattle.image.specs.Fields.{tag_of, width_of, value_of, next_of, told_next};

use fields::first;

// A field: which one it is, by its tag, and the part of the image that holds its value. The project requires this form: an enum
// of the fields, each case borrowing the bytes of its value.
#[derive(Clone, Copy)]
pub enum Field<'a> {
    Credit(&'a [u8]),
    Highest(&'a [u8]),
    Marks(&'a [u8]),
    Index(&'a [u8]),
    Tariff(&'a [u8]),
    Writes(&'a [u8]),
}

// The field that comes first, and the bytes after it, where it is one of an image: its tag is listed, and its value has the
// width listed with it.
pub fn next_field<'a>(bytes: &'a [u8]) -> Option<(Field<'a>, &'a [u8])>
    ensures value { told_next result ≡ next_of bytes.now }
    ensures width { IfSome result (λ n. length (value_of n.0) ≡ width_of n.0) }
{
    let cut = first(bytes)?;
    let field = match (cut.tag, cut.value.len()) {
        (1, 4) => Field::Credit(cut.value),
        (2, 4) => Field::Highest(cut.value),
        (3, 16) => Field::Marks(cut.value),
        (4, 2) => Field::Index(cut.value),
        (5, 20) => Field::Tariff(cut.value),
        (6, 4) => Field::Writes(cut.value),
        _ => return None,
    };
    Some((field, cut.rest))
}

impl<'a> Field<'a> {
    pub(crate) fn tag(&self) -> u8
        ensures { result ≡ tag_of self.now }
    {
        match self {
            Field::Credit(_) => 1,
            Field::Highest(_) => 2,
            Field::Marks(_) => 3,
            Field::Index(_) => 4,
            Field::Tariff(_) => 5,
            Field::Writes(_) => 6,
        }
    }

    pub(crate) fn value(&self) -> &'a [u8]
        ensures { result.now ≡ value_of self.now }
    {
        match self {
            Field::Credit(value)
            | Field::Highest(value)
            | Field::Marks(value)
            | Field::Index(value)
            | Field::Tariff(value)
            | Field::Writes(value) => value,
        }
    }
}
