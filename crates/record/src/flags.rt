// A record's flags: SRM says on which ports it is to be sent, SSN on which it is to be reported.
// Each has methods of its own, one line over `Ports`: SRM has a rule of its own, and a flag as a parameter would make each contract both.
// The contracts speak of the whole record, since all but the flags stays.
ghost use Rattle.std.specs.Prelude.{◌≡◌, nat_eq};
ghost use Rattle.record.specs.Ports.{has_port};
ghost use Rattle.record.specs.Flags.{srm_at, ssn_at, SetsSrm, ClearsSrm, SetsSsn, ClearsSsn};

use crate::port::{Port, Ports};
use crate::record::Record;
use crate::state::State;

impl Record {
    // Whether it is to be sent on a port.
    pub fn has_srm(&self, port: Port) -> bool
        ensures { result ≡ srm_at self.now port.n }
    {
        self.srm.has(port)
    }

    // Whether it is to be reported on a port.
    pub fn has_ssn(&self, port: Port) -> bool
        ensures { result ≡ ssn_at self.now port.n }
    {
        self.ssn.has(port)
    }

    // Sets SRM on these ports; a placeholder stays as it is.
    pub fn set_srm_on(&mut self, ports: Ports)
        ensures { SetsSrm self.old self.new (λ k. has_port ports k) }
    {
        if let State::Placeholder { .. } = self.state {
            return;
        }
        self.srm = self.srm | ports;
    }

    // Sets SRM on a port; a placeholder stays as it is.
    pub fn set_srm(&mut self, port: Port)
        ensures { SetsSrm self.old self.new (λ k. nat_eq k port.n) }
    {
        self.set_srm_on(Ports::only(port));
    }

    // Clears SRM on these ports.
    pub fn clear_srm_on(&mut self, ports: Ports)
        ensures { ClearsSrm self.old self.new (λ k. has_port ports k) }
    {
        self.srm = self.srm - ports;
    }

    // Clears SRM on a port.
    pub fn clear_srm(&mut self, port: Port)
        ensures { ClearsSrm self.old self.new (λ k. nat_eq k port.n) }
    {
        self.clear_srm_on(Ports::only(port));
    }

    // Sets SSN on these ports.
    pub fn set_ssn_on(&mut self, ports: Ports)
        ensures { SetsSsn self.old self.new (λ k. has_port ports k) }
    {
        self.ssn = self.ssn | ports;
    }

    // Sets SSN on a port.
    pub fn set_ssn(&mut self, port: Port)
        ensures { SetsSsn self.old self.new (λ k. nat_eq k port.n) }
    {
        self.set_ssn_on(Ports::only(port));
    }

    // Clears SSN on these ports.
    pub fn clear_ssn_on(&mut self, ports: Ports)
        ensures { ClearsSsn self.old self.new (λ k. has_port ports k) }
    {
        self.ssn = self.ssn - ports;
    }

    // Clears SSN on a port.
    pub fn clear_ssn(&mut self, port: Port)
        ensures { ClearsSsn self.old self.new (λ k. nat_eq k port.n) }
    {
        self.clear_ssn_on(Ports::only(port));
    }
}
