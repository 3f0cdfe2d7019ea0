// How a record is shown.
ghost use Rattle.std.specs.Prelude.{Some};
ghost use Rattle.record.specs.Texts.{number_text, record_text};

use crate::record::Record;
use octets::{ShownId, ShownOctet};
use std::fmt;

// A number that is to be shown, in eight digits.
#[derive(Clone, Copy)]
struct ShownNumber(u32);

impl fmt::Display for ShownNumber {
    ghost output = { λ n. Some (number_text n.0) };

    fn fmt<W: fmt::Write>(&self, f: &mut fmt::Formatter<W>) -> fmt::Result {
        let [a, b, c, d] = self.0.to_be_bytes().map(ShownOctet);
        write!(f, "{a}{b}{c}{d}")
    }
}

// Its identifier, number, lifetime, check octets and form, as `0000.0000.0001.00-00 00000001 1200 F606 L`.
impl fmt::Display for Record {
    ghost output = { λ x. Some (record_text x) };

    fn fmt<W: fmt::Write>(&self, f: &mut fmt::Formatter<W>) -> fmt::Result {
        let id = ShownId(self.id);
        let number = ShownNumber(self.number());
        let lifetime = self.lifetime();
        let check = self.check();
        let form = self.form();
        write!(f, "{id} {number} {lifetime} {check} {form}")
    }
}
