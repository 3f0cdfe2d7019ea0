// A record's body.
ghost use Rattle.std.specs.Prelude.{◌≡◌, ◌≤◌, true, length, take};
ghost use Rattle.record.specs.Fields.{whole_fields};

// At most 100 octets of whole fields: the first of the array, as many as the length says.
// An array and a length of its own, and no model: a record is Copy, which `ArrayVec` and a model that forgets octets are not.
// No equality: bodies are compared as slices, and a derived one would look behind the length.
#[derive(Clone, Copy)]
pub struct Body {
    pub(crate) octets: [u8; 100],
    pub(crate) len: usize,
    ghost room: { length octets ≡ 100 },
    ghost few: { len ≤ 100 },
    ghost fields: { whole_fields (take len octets) ≡ true },
}
