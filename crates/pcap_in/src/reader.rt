ghost use Rattle.std.specs.Prelude.{◌≡◌, ◌<◌, ◌*◌, ◌^◌, ◌++◌, ℕ, [], IsTrue, IsSome, IfSome, IfOk, IsErrOf, Err};
ghost use Rattle.npd_host.specs.declared.host.CallKind.{CallKind};
ghost use Rattle.npd_host.specs.Host.{CountRose, MovesInputsOnly};
ghost use Rattle.pcap_in.specs.Reading.{OnlyRead, ahead};
ghost use Rattle.pcap_in.specs.Reader.{is_usable, is_reading, state_after, left, InReach, Begins, TakesHeader, Follows, Tells, Keeps, Comes, Takes, moved_by, reader_after, IsStampedBelow};

use crate::fail::CapFail;
use crate::form::{Form, HEADER, form_in};
use crate::next::Next;
use crate::record::{Found, HEAD, read_byte, read_record};
use crate::state::State;
use db_model::Packet;
use npd_host::{Host, InId, fill};
use std::alloc::Global;
use std::marker::Model;

/// Reads a capture from an input of a host, packet by packet.
#[derive(Drop)]
pub struct CapReader {
    alloc: Global,
    id: InId,
    form: Form,
    /// The number of the next packet.
    number: u64,
    /// Where its record begins.
    offset: u64,
    /// The first byte of that record, where it was read already.
    kept: Option<u8>,
    state: State,
}

impl Model for CapReader {
    ghost use Rattle.std.specs.Prelude.{option_to_list};
    ghost use Rattle.pcap_in.specs.Reader.{Reader};

    ghost Value = { Reader };

    ghost view = { λ r. record {
      id = r.id;
      form = r.form;
      number = r.number;
      offset = r.offset;
      kept = option_to_list r.kept;
      state = r.state;
    } };
}

impl CapReader {
    /// Reads the file header. Broken: the input has none. ReadFault: the host could not read it.
    pub fn begin<H: Host>(alloc: Global, host: &mut H, id: InId) -> Result<CapReader, CapFail>
        requires { IsSome ((H.inputs host.old).name id.0) }
        ensures begins { IfSome ((H.inputs host.old).held id.0) (λ bytes.
            Begins result bytes (H.inputs host.new)) }
        ensures id { IfOk result (λ r. r.id ≡ id) }
        ensures number { IfOk result (λ r. r.number ≡ 0) }
        ensures kept { IfOk result (λ r. r.kept ≡ []) }
        ensures reading { IfOk result (λ r. IsTrue (is_reading r.state)) }
        ensures usable { IfOk result (λ r. IsTrue (is_usable r.state)) }
        ensures reach { IfOk result (λ r. InReach r (H.inputs host.new)) }
        ensures inputs { OnlyRead id.0 (H.inputs host.old) (H.inputs host.new)
            (TakesHeader result) }
        ensures frame { MovesInputsOnly H.outputs H.files H.faults host.old host.new }
        ensures cause { IsErrOf result CapFail.ReadFault
            → CountRose CallKind.Read ((H.inputs host.old).name id.0) H.faults host.old host.new }
    {
        let mut head = [0u8; HEADER];
        let found = fill(host, id, &mut head)?;
        if found < HEADER {
            return Err(CapFail::Broken { offset: 0, code: 1 });
        }
        let form = form_in(&head)?;
        Ok(CapReader {
            alloc,
            id,
            form,
            number: 0,
            offset: HEADER as u64,
            kept: None,
            state: State::Reading,
        })
    }

    /// What the file header says of each record.
    pub fn form(&self) -> Form
        ensures { result ≡ self.now.form }
    {
        self.form
    }

    /// Whether `next` may be called: the reader answered neither ReadFault nor NoMemory.
    pub fn usable(&self) -> bool
        ensures { result ≡ is_usable self.now.state }
    {
        match self.state {
            State::Reading | State::Broken { .. } => true,
            State::Unusable => false,
        }
    }

    /// Whether at least one byte follows. It may not be called behind an answer Broken of `next`, and answers none.
    /// ReadFault: the host could not read it. After ReadFault and NoMemory the reader is done with.
    pub fn more<H: Host>(&mut self, host: &mut H) -> Result<bool, CapFail>
        requires reading { IsTrue (is_reading self.old.state) }
        requires given { IsSome ((H.inputs host.old).name self.old.id.0) }
        requires reach { InReach self.old (H.inputs host.old) }
        ensures follows { IfSome (ahead self.old.kept ((H.inputs host.old).held self.old.id.0))
            (Follows result) }
        ensures tells { IfSome (left self.old (H.inputs host.old)) (λ seen.
            Tells result seen (left self.new (H.inputs host.new))) }
        ensures after { self.new ≡ record self.old {
          kept = self.new.kept;
          state = state_after result;
        } }
        ensures id { self.new.id ≡ self.old.id }
        ensures reading { IfOk result (λ _. IsTrue (is_reading self.new.state)) }
        ensures usable { IfOk result (λ _. IsTrue (is_usable self.new.state)) }
        ensures reach { InReach self.new (H.inputs host.new) }
        ensures whole { (offset code : ℕ) → result ≡ Err (CapFail.Broken offset code) → ⊥ }
        ensures inputs { OnlyRead self.old.id.0 (H.inputs host.old) (H.inputs host.new)
            (Keeps result self.old.kept self.new.kept) }
        ensures frame { MovesInputsOnly H.outputs H.files H.faults host.old host.new }
        ensures cause { IsErrOf result CapFail.ReadFault
            → CountRose CallKind.Read ((H.inputs host.old).name self.old.id.0)
            H.faults host.old host.new }
    {
        if self.kept.is_some() {
            return Ok(true);
        }
        match read_byte(host, self.id) {
            Ok(byte) => {
                self.kept = byte;
                Ok(byte.is_some())
            }
            Err(fail) => {
                self.state = State::Unusable;
                Err(CapFail::from(fail))
            }
        }
    }

    /// Moves behind the record of a packet.
    fn pass(&mut self, packet: &Packet)
        ensures { self.new ≡ moved_by packet.now self.old }
    {
        let length = packet.bytes.as_slice().len() as u64;
        self.number = self.number.saturating_add(1);
        self.offset = self
            .offset
            .saturating_add(HEAD as u64)
            .saturating_add(length);
    }

    /// Reads the next packet. Broken: what follows is no record, and each later call answers the same.
    /// ReadFault: the host could not read it. After ReadFault and NoMemory the reader is done with.
    pub fn next<H: Host>(&mut self, host: &mut H) -> Result<Next, CapFail>
        requires usable { IsTrue (is_usable self.old.state) }
        requires given { IsSome ((H.inputs host.old).name self.old.id.0) }
        requires reach { InReach self.old (H.inputs host.old) }
        ensures comes { IfSome (left self.old (H.inputs host.old)) (λ seen.
            Comes result seen (left self.new (H.inputs host.new))) }
        ensures after { self.new ≡ reader_after result self.old self.new.kept }
        ensures id { self.new.id ≡ self.old.id }
        ensures reading { IfOk result (λ _. IsTrue (is_reading self.new.state)) }
        ensures usable { is_usable self.new.state ≡ is_usable (state_after result) }
        ensures reach { InReach self.new (H.inputs host.new) }
        ensures again { (offset code : ℕ) → self.old.state ≡ State.Broken offset code
            → (result ≡ Err (CapFail.Broken offset code)) × (host.new ≡ host.old) }
        ensures stamp { IfOk result (IsStampedBelow (43 * 10 ^ 17)) }
        ensures inputs { OnlyRead self.old.id.0 (H.inputs host.old) (H.inputs host.new) (λ bytes.
            Takes result self.old.form self.old.number (self.old.kept ++ bytes) self.new.kept) }
        ensures frame { MovesInputsOnly H.outputs H.files H.faults host.old host.new }
        ensures cause { IsErrOf result CapFail.ReadFault
            → CountRose CallKind.Read ((H.inputs host.old).name self.old.id.0)
            H.faults host.old host.new }
    {
        let kept = self.kept.take();
        if let State::Broken { offset, code } = self.state {
            return Err(CapFail::Broken { offset, code });
        }
        match read_record(self.alloc, host, self.id, self.form, self.number, kept) {
            Ok(Found::Packet(packet)) => {
                self.pass(&packet);
                Ok(Next::Packet(packet))
            }
            Ok(Found::End) => Ok(Next::End),
            Ok(Found::Broken(code)) => {
                let offset = self.offset;
                self.state = State::Broken { offset, code };
                Err(CapFail::Broken { offset, code })
            }
            Err(fail) => {
                self.state = State::Unusable;
                Err(CapFail::from(fail))
            }
        }
    }
}
