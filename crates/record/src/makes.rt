// Records as they are made.
ghost use Rattle.std.specs.Prelude.{◌≡◌, ◌^◌, ◌<◌, ◌≤◌, true, MatchOption, replicate};
ghost use Rattle.frame.specs.Meaning.{lsp_said};
ghost use Rattle.frame.specs.Trip.{LspFits};
ghost use Rattle.record.specs.States.{number_in, formed};
ghost use Rattle.record.specs.Forms.{Unflagged, Made, Emptied, issued};

use crate::body::Body;
use crate::port::Ports;
use crate::record::Record;
use crate::state::State;
use frame::Lsp;
use octets::{CheckOctets, LspId};
use writer::computed_check;

// The record of a state, without flags.
fn unflagged(id: LspId, state: State) -> Record
    requires numbered { number_in state < 256 ^ 4 }
    requires form { formed id state ≡ true }
    ensures id { result.id ≡ id }
    ensures state { result.state ≡ state }
    ensures none { Unflagged result }
{
    Record {
        id,
        state,
        srm: Ports::none(),
        ssn: Ports::none(),
    }
}

impl Record {
    // The live record of an LSP, unless it is not live or a frame could not say it.
    // An Option: not to be live is no refusal, and an LSP that was read has none of the other causes.
    pub fn live(m: &Lsp<'_>) -> Option<Record>
        ensures { MatchOption result (LspFits (lsp_said m.now) → 1 ≤ m.now.lifetime → ⊥) (λ x. (1 ≤ m.now.lifetime) × Made (lsp_said m.now) m.now.id x) }
    {
        if m.lifetime == 0 || m.lifetime > 1200 || m.number == 0 {
            return None;
        }
        if computed_check(m) != m.check {
            return None;
        }
        let body = Body::new(m.body).ok()?;
        let state = State::Live {
            number: m.number,
            lifetime: m.lifetime,
            check: m.check,
            flags: m.flags,
            body,
        };
        Some(unflagged(m.id, state))
    }

    // The record of an issue, unless its number is 0: lifetime 1,200, flag octet 01, computed check octets.
    // A u32 and an Option, as for a purge: a NonZeroU32 would ask more of the caller.
    pub fn issue(id: LspId, number: u32, body: Body) -> Option<Record>
        ensures { MatchOption result (number ≡ 0) (λ x. (1 ≤ number) × Made (issued id number body) id x) }
    {
        if number == 0 {
            return None;
        }
        let said = Lsp {
            lifetime: 1200,
            id,
            number,
            check: CheckOctets::default(),
            flags: 1,
            body: body.as_slice(),
        };
        let state = State::Live {
            number,
            lifetime: 1200,
            check: computed_check(&said),
            flags: 1,
            body,
        };
        Some(unflagged(id, state))
    }

    // The purge of a number, unless that is 0; it waits 60.
    #[tactic(auto, using(crate::proofs::FormLaws::waits_sixty))]
    pub fn purge(id: LspId, number: u32, flags: u8) -> Option<Record>
        ensures { MatchOption result (number ≡ 0) (λ x. (1 ≤ number) × Emptied id number flags x) }
    {
        if number > 0 {
            let state = State::Purge {
                number,
                flags,
                wait: 60,
            };
            Some(unflagged(id, state))
        } else {
            None
        }
    }

    // A placeholder; it waits 60.
    #[tactic(auto, using(crate::proofs::FormLaws::waits_sixty))]
    pub fn placeholder(id: LspId) -> Record
        ensures { Emptied id 0 0 result }
    {
        unflagged(id, State::Placeholder { wait: 60 })
    }
}

// A placeholder of the identifier 0.
impl Default for Record {
    ghost is_default = { Emptied (replicate 8 0) 0 0 };

    fn default() -> Self {
        Record::placeholder([0; 8])
    }
}
