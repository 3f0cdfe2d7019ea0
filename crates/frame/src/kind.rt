// The kinds of frames.
ghost use Rattle.std.specs.Prelude.{◌≡◌};
ghost use Rattle.frame.specs.Kinds.{kind_octet, named, header_size};

use fault::FrameFault;

// What a frame is, by its octet 4.
#[derive(Clone, Copy, PartialEq, Eq, Debug)]
pub enum Kind {
    // a link state PDU: one record
    Lsp,
    // a complete sequence numbers PDU: all records of a range, as entries
    Csnp,
    // a partial sequence numbers PDU: some records, as entries
    Psnp,
}

impl TryFrom<u8> for Kind {
    type Error = FrameFault;

    ghost try_from_gives = { λ octet r. r ≡ named octet };

    // The kind that an octet names.
    fn try_from(octet: u8) -> Result<Kind, FrameFault> {
        match octet {
            18 => Ok(Kind::Lsp),
            24 => Ok(Kind::Csnp),
            26 => Ok(Kind::Psnp),
            _ => Err(FrameFault::Kind),
        }
    }
}

impl From<Kind> for u8 {
    ghost from_gives = { λ kind octet. octet ≡ kind_octet kind };

    // Octet 4 of a kind's frames.
    fn from(kind: Kind) -> u8 {
        match kind {
            Kind::Lsp => 18,
            Kind::Csnp => 24,
            Kind::Psnp => 26,
        }
    }
}

impl Kind {
    // How many octets its header has.
    pub fn header_size(self) -> usize
        ensures { result ≡ header_size self }
    {
        match self {
            Kind::Lsp => 27,
            Kind::Csnp => 33,
            Kind::Psnp => 17,
        }
    }
}
