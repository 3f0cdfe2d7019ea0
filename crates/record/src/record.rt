// A record of an LSP.
ghost use Rattle.std.specs.Prelude.{◌≡◌, ◌^◌, ◌<◌, true};
ghost use Rattle.octets.specs.Octets.{value};
ghost use Rattle.record.specs.States.{number_in, formed, quiet};

use crate::port::Ports;
use crate::state::State;
use octets::LspId;

// What a router holds of one LSP: live, a purge or a placeholder. No equality and no Debug, as a body has none.
#[derive(Clone, Copy)]
pub struct Record {
    pub(crate) id: LspId,
    pub(crate) state: State,
    // where it is to be sent
    pub(crate) srm: Ports,
    // where it is to be reported
    pub(crate) ssn: Ports,
    // The two bounds are those of the types. A function is told them only of fields that it reads, and lemmas are about any record.
    ghost sized: { value id < 256 ^ 8 },
    ghost numbered: { number_in state < 256 ^ 4 },
    ghost form: { formed id state ≡ true },
    ghost unsent: { quiet state srm ≡ true },
}
