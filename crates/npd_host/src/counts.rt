ghost use Rattle.std.specs.Prelude.{◌≡◌, ◌≤◌};
ghost use Rattle.npd_host.specs.declared.host.CallKind.{CallKind};
ghost use Rattle.npd_host.specs.Host.{Rose};
ghost use Rattle.npd_host.specs.Counts.{count_at, raised};

use crate::host::CallKind;

/// A number for each kind of call. A number that would pass the last value of a u64 stands still there.
#[derive(Clone, Copy, Debug, PartialEq, Eq)]
pub struct Counts {
    pub open_in: u64,
    pub read: u64,
    pub open_out: u64,
    pub write: u64,
}

impl Counts {
    pub const ZERO: Counts = Counts {
        open_in: 0,
        read: 0,
        open_out: 0,
        write: 0,
    };

    /// The number of a kind.
    pub fn at(&self, kind: CallKind) -> u64
        ensures { result ≡ count_at kind self.now }
    {
        match kind {
            CallKind::OpenIn => self.open_in,
            CallKind::Read => self.read,
            CallKind::OpenOut => self.open_out,
            CallKind::Write => self.write,
        }
    }

    /// Adds one to the number of a kind.
    pub fn raise(&mut self, kind: CallKind)
        ensures raised { self.new ≡ raised kind self.old }
        ensures rose { Rose (count_at kind self.old) (count_at kind self.new) }
        ensures later { (other : CallKind) → count_at other self.old ≤ count_at other self.new }
    {
        match kind {
            CallKind::OpenIn => self.open_in = self.open_in.saturating_add(1),
            CallKind::Read => self.read = self.read.saturating_add(1),
            CallKind::OpenOut => self.open_out = self.open_out.saturating_add(1),
            CallKind::Write => self.write = self.write.saturating_add(1),
        }
    }
}
