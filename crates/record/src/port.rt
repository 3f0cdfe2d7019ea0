// A router's ports.
ghost use Rattle.std.specs.Prelude.{◌<◌};

// A router's own number for an attachment, 0 to 7. It is no circuit's number.
// It is made by `new`, which answers an Option: there is one cause, and a conversion would need an error type for it; `number` is its counterpart.
#[derive(Clone, Copy, PartialEq, Eq, Debug)]
pub struct Port {
    pub(crate) n: u8,
    ghost few: { n < 8 },
}

// A set of ports: bit k stands for port k.
#[derive(Clone, Copy, PartialEq, Eq, Debug)]
pub struct Ports {
    pub(crate) bits: u8,
    ghost few: { bits < 256 },
}
