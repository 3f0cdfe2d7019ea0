// The forms of records, and how what was heard stands to a record that is held.
ghost use Rattle.std.specs.Prelude.{Some};
ghost use Rattle.record.specs.Forms.{form_letter};

use std::fmt;

#[derive(Clone, Copy, PartialEq, Eq, Debug)]
pub enum Form {
    // issued, and not yet expired
    Live,
    // withdrawn or expired: only its number is left
    Purge,
    // not held yet: a summary has named it
    Placeholder,
}

// L, P or H.
impl fmt::Display for Form {
    ghost output = { λ f. Some (form_letter f) };

    fn fmt<W: fmt::Write>(&self, f: &mut fmt::Formatter<W>) -> fmt::Result {
        f.write_str(match self {
            Form::Live => "L",
            Form::Purge => "P",
            Form::Placeholder => "H",
        })
    }
}

// How what was heard stands to a record that is held. The standard's words; an `Ordering` would not say of what.
#[derive(Clone, Copy, PartialEq, Eq, Debug)]
pub enum Recency {
    Newer,
    Same,
    Older,
}
