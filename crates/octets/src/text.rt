// How identifiers and check octets are shown, in upper-case hexadecimal.
ghost use Rattle.std.specs.Prelude.{Some};
ghost use Rattle.octets.specs.Texts.{octet_text, check_text, id_text, source_text};

use crate::checks::CheckOctets;
use crate::ids::{LspId, SourceId};
use std::fmt;

// An octet that is to be shown, in two digits.
#[derive(Clone, Copy)]
pub struct ShownOctet(pub u8);

impl fmt::Display for ShownOctet {
    ghost output = { λ n. Some (octet_text n.0) };

    #[tactic(auto, using(crate::proofs::Shown::octet_shown))]
    fn fmt<W: fmt::Write>(&self, f: &mut fmt::Formatter<W>) -> fmt::Result {
        let octet = self.0;
        write!(f, "{octet:02X}")
    }
}

// As `F606`.
impl fmt::Display for CheckOctets {
    ghost output = { λ c. Some (check_text c) };

    fn fmt<W: fmt::Write>(&self, f: &mut fmt::Formatter<W>) -> fmt::Result {
        let x = ShownOctet(self.x);
        let y = ShownOctet(self.y);
        write!(f, "{x}{y}")
    }
}

// A source that is to be shown, as `0000.0000.0001.00`.
#[derive(Clone, Copy)]
pub struct ShownSource(pub SourceId);

impl fmt::Display for ShownSource {
    ghost output = { λ s. Some (source_text s.0) };

    fn fmt<W: fmt::Write>(&self, f: &mut fmt::Formatter<W>) -> fmt::Result {
        let [a, b, c, d, e, g, node] = self.0.map(ShownOctet);
        write!(f, "{a}{b}.{c}{d}.{e}{g}.{node}")
    }
}

// An LSP's identifier that is to be shown, as `0000.0000.0001.00-00`.
#[derive(Clone, Copy)]
pub struct ShownId(pub LspId);

impl fmt::Display for ShownId {
    ghost output = { λ s. Some (id_text s.0) };

    fn fmt<W: fmt::Write>(&self, f: &mut fmt::Formatter<W>) -> fmt::Result {
        let [a, b, c, d, e, g, node, fragment] = self.0;
        let source = ShownSource([a, b, c, d, e, g, node]);
        let fragment = ShownOctet(fragment);
        write!(f, "{source}-{fragment}")
    }
}
