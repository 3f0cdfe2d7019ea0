// What a record holds besides its identifier and its flags.
use crate::body::Body;
use octets::CheckOctets;

// What each form has, and no more. No equality and no Debug, as a body has none.
#[derive(Clone, Copy)]
pub(crate) enum State {
    Live {
        number: u32,
        lifetime: u16,
        check: CheckOctets,
        // the flag octet
        flags: u8,
        body: Body,
    },
    Purge {
        number: u32,
        flags: u8,
        wait: u8,
    },
    Placeholder {
        wait: u8,
    },
}
