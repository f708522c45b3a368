ghost use Rattle.std.specs.Prelude.{◌≡◌, ◌<◌, IfErr, IfOk};
ghost use Rattle.npd_host.specs.Host.{MovesOutputsOnly, NoneFalls};
ghost use Rattle.pcap_in.specs.Reader.{InReach};
ghost use Rattle.pipeline.specs.Causes.{HasCause, HasWindowCause, moves_packets, writes_outputs};
ghost use Rattle.pipeline.specs.Outputs.{openings, closing};
ghost use Rattle.pipeline.specs.Packets.{OutputsAre, Ends};
ghost use Rattle.pipeline.specs.Pipeline.{standing, IsFlowing, IsFresh, Begins, GoesOn, TurnsWindow};
ghost use Rattle.pipeline.specs.Serial.{serial_lines};
ghost use Rattle.pipeline.specs.Taken.{AreGiven, GaveSome, sink_name, TakesTexts, TookEach, TookFronts, TookParts};
ghost use Rattle.pipeline.specs.Window.{WhereFull};
ghost use Rattle.pipeline.specs.Written.{AreApart};

use crate::output::{write_ready, write_texts};
use crate::reading::{Noted, Room, read_window};
use crate::sinks::Sinks;
use crate::status::Status;
use db_laws::serial_front;
use db_model::{NoMemory, Packet};
use decode_vm::Steps;
use engine::laws::settled_texts;
use engine::{Engine, Ready, Texts, put_closings};
use npd_host::Host;
use pcap_in::CapReader;
use pcap_in::laws::{fronts_tell, seen_is_limited};
use session::Session;
use std::alloc::Global;
use std::sync::ledger::{Blank, Ledger};

/// The way of packets from a capture to the outputs, window by window, and what is needed on it.
#[derive(Drop)]
pub struct Pipeline<'a> {
    engine: &'a Engine,
    sinks: Sinks,
    room: Room,
    reader: CapReader,
    /// What the packets so far left.
    session: Session,
    /// The packets of a window.
    packets: Vec<Packet>,
    /// The same, settled.
    ready: Vec<Ready>,
    /// A buffer for openings and closings.
    texts: Texts,
    /// A buffer for lines of the trace.
    line: Vec<u8>,
}

impl<'a> Pipeline<'a> {
    /// A way on which no packet went yet.
    pub fn new(
        alloc: Global,
        engine: &'a Engine,
        reader: CapReader,
        sinks: Sinks,
        room: Room,
    ) -> Result<Pipeline<'a>, NoMemory>
        ensures { IfOk result (Begins engine.now reader sinks room) }
    {
        Ok(Pipeline {
            engine,
            sinks,
            room,
            reader,
            session: engine.session()?,
            packets: Vec::new(alloc),
            ready: Vec::new(alloc),
            texts: Texts::new(alloc),
            line: Vec::new(alloc),
        })
    }

    /// Writes the openings.
    fn write_openings<H: Host>(&mut self, host: &mut H) -> Result<(), Status>
        requires given { AreGiven self.old.sinks (H.outputs host.old).name }
        requires apart { AreApart self.old.sinks }
        ensures takes { TakesTexts result self.old.sinks (H.outputs host.old) (H.outputs host.new)
            (openings self.old.engine.now) }
        ensures same { self.new ≡ record self.old { texts = self.new.texts } }
        ensures frame { MovesOutputsOnly H.inputs H.files H.faults host.old host.new }
        ensures cause { IfErr result (HasCause (writes_outputs (sink_name self.old.sinks (H.outputs host.old).name))
            (H.faults host.old) (H.faults host.new)) }
    {
        let texts = &mut self.texts;
        match self.engine.put_openings(self.sinks.wanted(), texts) {
            Ok(()) => write_texts(host, self.sinks, &texts.pdml, &texts.psml, b""),
            Err(_) => Err(Status::NoMemory),
        }
    }

    /// Writes the closings.
    fn write_closings<H: Host>(&mut self, host: &mut H) -> Result<(), Status>
        requires given { AreGiven self.old.sinks (H.outputs host.old).name }
        requires apart { AreApart self.old.sinks }
        ensures takes { TakesTexts result self.old.sinks (H.outputs host.old) (H.outputs host.new) closing }
        ensures frame { MovesOutputsOnly H.inputs H.files H.faults host.old host.new }
        ensures cause { IfErr result (HasCause (writes_outputs (sink_name self.old.sinks (H.outputs host.old).name))
            (H.faults host.old) (H.faults host.new)) }
    {
        let texts = &mut self.texts;
        match put_closings(self.sinks.wanted(), texts) {
            Ok(()) => write_texts(host, self.sinks, &texts.pdml, &texts.psml, b""),
            Err(_) => Err(Status::NoMemory),
        }
    }

    /// Reads the packets of a window, decodes them in order and writes their texts. What ended the window.
    fn pass_window<H: Host, L: Ledger>(
        &mut self,
        host: &mut H,
        steps: &mut Steps<L>,
    ) -> Result<Noted, Status>
        requires flows { IsFlowing self.old (H.inputs host.old) (H.outputs host.old) }
        ensures turns { TurnsWindow self.old result
            (standing self.old steps.old (H.inputs host.old) (H.outputs host.old))
            (standing self.new steps.new (H.inputs host.new) (H.outputs host.new)) }
        ensures flows { WhereFull result (IsFlowing self.new (H.inputs host.new) (H.outputs host.new)) }
        ensures same { GoesOn self.old self.new }
        ensures files { H.files host.new ≡ H.files host.old }
        ensures later { NoneFalls (H.faults host.old) (H.faults host.new) }
        ensures cause { HasWindowCause ((H.inputs host.old).name self.old.reader.id.0)
            (sink_name self.old.sinks (H.outputs host.old).name)
            (H.faults host.old) (H.faults host.new) result }
    {
        settled_texts();
        self.packets.clear();
        self.ready.clear();
        let noted = read_window(host, &mut self.reader, self.room, &mut self.packets)?;
        match self.engine.settle(
            &self.packets,
            self.sinks.wanted(),
            &mut self.session,
            steps,
            &mut self.ready,
        ) {
            Ok(()) => write_ready(host, self.sinks, &self.ready, &mut self.line)?,
            Err(_) => return Err(Status::NoMemory),
        }
        let count = self.packets.as_slice().len() as u32;
        self.room.left -= count;
        Ok(noted)
    }

    /// Writes the openings, and then window after window. Ok: the outputs are to be closed, and then this is the
    /// status.
    fn pass_windows<H: Host, L: Ledger>(
        &mut self,
        host: &mut H,
        steps: &mut Steps<L>,
    ) -> Result<Status, Status>
        requires fresh { IsFresh self.old }
        requires flows { IsFlowing self.old (H.inputs host.old) (H.outputs host.old) }
        ensures ends { Ends self.old.engine.now serial_lines self.old.sinks self.old.room.most result
            (standing self.old steps.old (H.inputs host.old) (H.outputs host.old))
            (standing self.new steps.new (H.inputs host.new) (H.outputs host.new)) }
        ensures same { GoesOn self.old self.new }
        ensures files { H.files host.new ≡ H.files host.old }
        ensures later { NoneFalls (H.faults host.old) (H.faults host.new) }
        ensures cause { IfErr result (HasCause
            (moves_packets ((H.inputs host.old).name self.old.reader.id.0)
            (sink_name self.old.sinks (H.outputs host.old).name)) (H.faults host.old) (H.faults host.new)) }
    {
        serial_front();
        fronts_tell();
        self.write_openings(host)?;
        loop {
            match self.pass_window(host, steps)? {
                Noted::Full => {}
                Noted::Closes(status) => return Ok(status),
                Noted::Fails(status) => return Err(status),
            }
        }
    }

    /// Writes the packets of the capture, and closes the outputs where its end or the limit is reached. Decodings are
    /// counted by the blank's ledger, from none on.
    pub fn run<H: Host, L: Ledger>(mut self, host: &mut H, blank: Blank) -> Status
        requires fresh { IsFresh self }
        requires flows { IsFlowing self (H.inputs host.old) (H.outputs host.old) }
        requires name { blank.name ≡ L.name }
        requires parts { blank.parts ≡ L.parts }
        requires some { 0 < blank.parts }
        ensures output { OutputsAre self.entry.engine.now serial_lines self.entry.room.most
            (TookEach self.entry.sinks (H.outputs host.old) (H.outputs host.new))
            (λ role. TookParts role self.entry.sinks (H.outputs host.old) (H.outputs host.new))
            (TookFronts self.entry.sinks (H.outputs host.old) (H.outputs host.new))
            result self.entry.reader (H.inputs host.old) (H.inputs host.new) }
        ensures inputs { GaveSome self.entry.reader.id.0 (H.inputs host.old) (H.inputs host.new) }
        ensures opened { (H.outputs host.new).opened ≡ (H.outputs host.old).opened }
        ensures files { H.files host.new ≡ H.files host.old }
        ensures later { NoneFalls (H.faults host.old) (H.faults host.new) }
        ensures cause { HasCause
            (moves_packets ((H.inputs host.old).name self.entry.reader.id.0)
            (sink_name self.entry.sinks (H.outputs host.old).name))
            (H.faults host.old) (H.faults host.new) result }
    {
        serial_front();
        seen_is_limited();
        let mut steps = Steps::<L>::begin(blank);
        match self.pass_windows(host, &mut steps) {
            Ok(status) => match self.write_closings(host) {
                Ok(()) => status,
                Err(status) => status,
            },
            Err(status) => status,
        }
    }
}
