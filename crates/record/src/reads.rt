// What a record holds: 0, the check octets 0 0 and the empty body where its form has none.
ghost use Rattle.std.specs.Prelude.{◌≡◌};
ghost use Rattle.record.specs.Forms.{number_of, lifetime_of, check_of, flags_of, body_of, wait_of};

use crate::body::Body;
use crate::record::Record;
use crate::state::State;
use octets::{CheckOctets, LspId};

impl Record {
    pub fn id(&self) -> LspId
        ensures { result ≡ self.now.id }
    {
        self.id
    }

    pub fn number(&self) -> u32
        ensures { result ≡ number_of self.now }
    {
        match self.state {
            State::Live { number, .. } | State::Purge { number, .. } => number,
            State::Placeholder { .. } => 0,
        }
    }

    pub fn lifetime(&self) -> u16
        ensures { result ≡ lifetime_of self.now }
    {
        match self.state {
            State::Live { lifetime, .. } => lifetime,
            State::Purge { .. } | State::Placeholder { .. } => 0,
        }
    }

    pub fn check(&self) -> CheckOctets
        ensures { result ≡ check_of self.now }
    {
        match self.state {
            State::Live { check, .. } => check,
            State::Purge { .. } | State::Placeholder { .. } => CheckOctets::default(),
        }
    }

    // The flag octet.
    pub fn flags(&self) -> u8
        ensures { result ≡ flags_of self.now }
    {
        match self.state {
            State::Live { flags, .. } | State::Purge { flags, .. } => flags,
            State::Placeholder { .. } => 0,
        }
    }

    pub fn body(&self) -> Body
        ensures { result ≡ body_of self.now }
    {
        match self.state {
            State::Live { body, .. } => body,
            State::Purge { .. } | State::Placeholder { .. } => Body::empty(),
        }
    }

    pub fn wait(&self) -> u8
        ensures { result ≡ wait_of self.now }
    {
        match self.state {
            State::Live { .. } => 0,
            State::Purge { wait, .. } | State::Placeholder { wait } => wait,
        }
    }
}
